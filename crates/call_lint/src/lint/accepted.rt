//! Over files that are accepted.

ghost use Rattle.std.specs.Prelude.{IfOk, List, ℕ};
ghost use Rattle.call_lint.specs.lint.Outcomes.{IsReadLinted, IsSaid};

use crate::lint::exact::exact_ends;
use crate::lint::linted::Linted;
use crate::lint::listed::linted_by;
use crate::lint::sheet::Sheet;
use crate::warnings::{Warning, most_moved, warnings};
use model_line::{Line, Memory, Script};
use std::alloc::Global;

/// What is suspicious in a line and its scripts, with these warnings besides.
pub fn lint_accepted(
    alloc: Global,
    line: &Line,
    sheet: Sheet<'_>,
    scripts: &[Script],
    more: &[Warning],
) -> Result<Linted, Memory>
    ensures found { IfOk result (λ linted.
        IsReadLinted line.now scripts.now more.now linted.outcome) }
    ensures said { IfOk result (λ linted. (name bytes : List ℕ)
        → IsSaid name bytes linted.outcome linted.text.items) }
{
    let exact = exact_ends(alloc, line, sheet)?;
    let mut list = warnings(alloc, line, &exact, scripts)?;
    list.extend_from_slice(more)?;
    let moved = most_moved(line.tick_us, &exact);
    linted_by(alloc, sheet, line, scripts, moved, &list)
}
