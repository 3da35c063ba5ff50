//! Over a line file alone.

ghost use Rattle.std.specs.Prelude.{IfOk};
ghost use Rattle.call_lint.specs.lint.Outcomes.{IsLineLinted, IsSaid, IsTimesLinted};

use crate::lint::exact::exact_ends;
use crate::lint::linted::Linted;
use crate::lint::listed::linted_by;
use crate::lint::sheet::{Names, Sheet};
use crate::warnings::{line_warnings, most_moved};
use base_memory::{Memory, Stopped};
use call_refused::refused_line;
use file_line::read_line;
use model_line::Line;
use std::alloc::Global;

/// What is suspicious in the times of a line file of this name, or where and why it is refused.
pub fn lint_line_file(alloc: Global, bytes: &[u8], name: &str) -> Result<Linted, Memory>
    ensures found { IfOk result (λ linted. IsLineLinted bytes.now linted.outcome) }
    ensures said { IfOk result (λ linted.
        IsSaid name.now bytes.now linted.outcome linted.text.items) }
{
    match read_line(alloc, bytes) {
        Ok(own) => lint_times(alloc, &own, bytes, name),
        Err(Stopped::Memory) => Err(Memory),
        Err(Stopped::Fault(fault)) => {
            Ok(Linted::refused(refused_line(alloc, name, bytes, &fault)?))
        }
    }
}

fn lint_times(alloc: Global, own: &Line, bytes: &[u8], name: &str) -> Result<Linted, Memory>
    ensures found { IfOk result (λ linted. IsTimesLinted own.now linted.outcome) }
    ensures said { IfOk result (λ linted.
        IsSaid name.now bytes.now linted.outcome linted.text.items) }
{
    let sheet = Sheet::Files {
        line: bytes,
        scripts: &[],
        names: Names {
            line: name,
            scripts: name,
        },
    };
    let exact = exact_ends(alloc, own, sheet)?;
    let list = line_warnings(alloc, own, &exact)?;
    let moved = most_moved(own.tick_us, &exact);
    linted_by(alloc, sheet, own, &[], moved, &list)
}
