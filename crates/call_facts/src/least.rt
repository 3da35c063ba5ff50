//! The least margin of all internal faults.

ghost use Rattle.std.specs.Prelude.{◌≡◌, ◌+◌, IfOk, List, Some, length};
ghost use Rattle.std.specs.Prelude.{slice_get};
ghost use Rattle.call_facts.specs.Least.{IsLeastOf, at_words as words_at, spare_of as spare_in};
ghost use Rattle.call_facts.specs.Least.{IsLeastSoFar, to_spare as to_spare_of};
ghost use Rattle.model_line.specs.declared.script.Script.{Script as ScriptOf};
ghost use Rattle.call_facts.specs.declared.firsts.Firsts.{Firsts as FirstsOf};

use crate::firsts::Firsts;
use call_answer::Study;
use draw_page::LeastMargin;
use model_line::{Kind, Line, Memory, Script, name_of_script, name_of_terminal};
use std::alloc::Global;

/// How much is to spare where it is least, and where that is; none where no internal fault trips in
/// time.
pub fn least_margin(
    alloc: Global,
    study: &Study,
    firsts: &[Firsts],
) -> Result<Option<LeastMargin>, Memory>
    ensures { IfOk result (IsLeastOf study.now.line study.now.scripts.items firsts.now) }
{
    let scripts = study.scripts.as_slice();
    match least_place(scripts, firsts) {
        Some(least) => {
            let of = &firsts[least.place];
            let at = at_words(alloc, &study.line, scripts, of.script, of.terminal)?;
            Ok(Some(LeastMargin {
                ticks: least.ticks,
                at,
            }))
        }
        None => Ok(None),
    }
}

/// A place, and how much is to spare there.
#[derive(Clone, Copy)]
pub struct Spare {
    pub place: usize,
    pub ticks: u32,
}

// Where the least is to spare.
fn least_place(scripts: &[Script], firsts: &[Firsts]) -> Option<Spare>
    ensures { IsLeastSoFar scripts.now firsts.now (length firsts.now) result }
{
    let mut least = None;
    for i in 0..firsts.len() {
        least = less(least, i, spare_of(scripts, &firsts[i]));
    }
    least
}

// The lesser of what was found, and what is to spare at a place.
fn less(least: Option<Spare>, place: usize, spare: Option<u32>) -> Option<Spare>
    ensures { (scripts : List ScriptOf) (firsts : List FirstsOf) (f : FirstsOf) →
        slice_get firsts place ≡ Some f → spare_in scripts f ≡ spare →
        IsLeastSoFar scripts firsts place least →
        IsLeastSoFar scripts firsts (place + 1) result }
{
    match (least, spare) {
        (Some(least), Some(ticks)) if ticks < least.ticks => Some(Spare { place, ticks }),
        (Some(least), _) => Some(least),
        (None, Some(ticks)) => Some(Spare { place, ticks }),
        (None, None) => None,
    }
}

// How much is to spare of these first ticks.
fn spare_of(scripts: &[Script], firsts: &Firsts) -> Option<u32>
    ensures { result ≡ spare_in scripts.now firsts.now }
{
    match scripts.get(firsts.script as usize) {
        Some(script) => to_spare(script.kind, script.deadline, firsts.must),
        None => None,
    }
}

fn to_spare(kind: Kind, deadline: u32, first: Option<u32>) -> Option<u32>
    ensures { result ≡ to_spare_of kind deadline first }
{
    match (kind, first) {
        (Kind::Internal, Some(first)) if first <= deadline => Some(deadline - first),
        _ => None,
    }
}

/// `SCRIPT at TERMINAL`.
pub fn at_words(
    alloc: Global,
    line: &Line,
    scripts: &[Script],
    script: u32,
    terminal: u32,
) -> Result<Vec<u8>, Memory>
    ensures { IfOk result (λ words. words.items
        ≡ words_at line.now scripts.now script terminal) }
{
    let mut words = Vec::from_slice(alloc, name_of_script(scripts, script))?;
    words.extend_from_slice(b" at ")?;
    words.extend_from_slice(name_of_terminal(line, terminal))?;
    Ok(words)
}
