//! The table.

ghost use Rattle.std.specs.Prelude.{◌≡◌, ◌≤◌, ◌&&◌, length, IfOk};
ghost use Rattle.std.specs.List.{All, list_any};
ghost use Rattle.model_line.specs.Fits.{Fits};
ghost use Rattle.judge_choose.specs.Found.{AreSettings};
ghost use Rattle.call_answer.specs.{Answers.Says, Answers.status_by};
ghost use Rattle.call_choose.specs.Choices.{choices_told};
ghost use Rattle.call_choose.specs.Left.{has_left as some_left_in, is_left as left_of};
ghost use Rattle.call_choose.specs.Named.{IsInterval};

use crate::named::Named;
use crate::rows::{Telling, push_header, push_rows};
use call_answer::{Done, Said};
use judge_choose::{Range, Setting, ranges};
use judge_settle::corner::is_one_railed;
use model_line::{Memory, Script};
use net_gates::Compiled;
use std::alloc::Global;

/// The range of each setting, with as much room to its bounds as is asked for, each told under its
/// name. The status is 0 where nothing is left in any range; else 1 where what is left fails, in a
/// line whose trips are one-railed, and 2 where it is open.
pub fn choose_table(
    alloc: Global,
    compiled: &Compiled<'_>,
    scripts: &[Script],
    names: &[Named],
    settings: &[Setting],
    room: Option<u32>,
) -> Result<Said, Memory>
    requires fit { All (Fits compiled.now.line.now) scripts.now }
    requires few { length scripts.now ≤ 4096 }
    requires settings { AreSettings compiled.now.line.now settings.now }
    requires intervals { All IsInterval names.now }
    ensures { IfOk result (Says (choices_told compiled.now.line.now scripts.now names.now
        settings.now room)) }
{
    let ranges = ranges(alloc, compiled, scripts, settings)?;
    let telling = Telling {
        line: compiled.line,
        scripts,
        room,
        is_one_railed: is_one_railed(compiled.line),
    };
    let mut text = Vec::new(alloc);
    push_header(alloc, &mut text)?;
    push_rows(alloc, &mut text, &telling, names, &ranges)?;
    Ok(Said {
        status: status_of(some_left(&ranges), telling.is_one_railed),
        text,
    })
}

fn status_of(left: bool, one_railed: bool) -> Done
    ensures { result ≡ status_by (left && one_railed) left }
{
    if left && one_railed {
        Done::SomeNo
    } else if left {
        Done::SomeUndecided
    } else {
        Done::Good
    }
}

// Whether something is left in some range.
fn some_left(ranges: &[Range]) -> bool
    ensures { result ≡ list_any some_left_in ranges.now }
{
    ranges.iter().any(|range| has_left(range))
}

fn has_left(range: &Range) -> bool
    ensures { result ≡ some_left_in range.now }
{
    range.kept.iter().any(|kept| is_left(*kept))
}

fn is_left(kept: bool) -> bool
    ensures { result ≡ left_of kept }
{
    !kept
}
