//! The text of a list of warnings, if there are any.

ghost use Rattle.std.specs.Prelude.{◌≡◌, IfOk, List, ℕ};
ghost use Rattle.call_lint.specs.lint.Outcomes.{IsSaid, outcome_of as outcome_in};

use crate::lint::linted::Linted;
use crate::lint::sheet::Sheet;
use crate::lint::warned::warnings_text;
use crate::warnings::Warning;
use model_line::{Line, Memory, Script};
use std::alloc::Global;

/// What these warnings come to, of times moved by so many microseconds at most where they are
/// rounded.
pub fn linted_by(
    alloc: Global,
    sheet: Sheet<'_>,
    line: &Line,
    scripts: &[Script],
    moved: u128,
    warnings: &[Warning],
) -> Result<Linted, Memory>
    ensures found { IfOk result (λ linted. linted.outcome ≡ outcome_in warnings.now) }
    ensures said { IfOk result (λ linted. (name bytes : List ℕ)
        → IsSaid name bytes linted.outcome linted.text.items) }
{
    if warnings.is_empty() {
        return Ok(Linted::clean(alloc));
    }
    let text = warnings_text(alloc, sheet, line, scripts, moved, warnings)?;
    Ok(Linted::suspicious(text))
}
