//! All warnings.

ghost use Rattle.std.specs.Prelude.{◌≡◌, ◌++◌, IfOk, OnOk};
ghost use Rattle.std.specs.List.{All};
ghost use Rattle.call_lint.specs.{warnings.TimeTests.AreEnds, warnings.Warnings.warnings as warnings_of};
ghost use Rattle.call_lint.specs.warnings.Warnings.{line_warnings as of_line, shown_warnings};

use crate::warnings::elements::push_terminals;
use crate::warnings::scripts::push_scripts;
use crate::warnings::times::push_times;
use crate::warnings::warning::Warning;
use file_study::times::Interval;
use model_line::{Line, Memory, Script};
use std::alloc::Global;

/// The warnings of the times of a line, parameter by parameter.
///
/// `exact` has the ends of each parameter in microseconds, as they are written. Where it has none
/// for a parameter, nothing is said of what was rounded to ticks.
#[tactic(auto, unfolding(crate::specs::warnings::Warnings::line_warnings))]
pub fn line_warnings(alloc: Global, line: &Line, exact: &[Interval]) -> Result<Vec<Warning>, Memory>
    requires { All AreEnds exact.now }
    ensures { IfOk result (λ v. v.items ≡ of_line line.now exact.now) }
{
    let mut list = Vec::new(alloc);
    push_times(&mut list, line, exact)?;
    Ok(list)
}

/// Adds the warnings of what scripts of the line show: of the terminals, and then of the scripts.
#[tactic(auto, unfolding(crate::specs::warnings::Warnings::shown_warnings))]
pub fn push_shown(list: &mut Vec<Warning>, line: &Line, scripts: &[Script]) -> Result<(), Memory>
    ensures { OnOk result (list.new.items
        ≡ list.old.items ++ shown_warnings line.now scripts.now) }
{
    push_terminals(list, line, scripts)?;
    push_scripts(list, line, scripts)
}

/// The warnings of a line and its scripts: of the times by parameter, of the terminals, of the
/// scripts, in the order in which `Warning` names them.
#[tactic(auto, unfolding(crate::specs::warnings::Warnings::warnings))]
pub fn warnings(
    alloc: Global,
    line: &Line,
    exact: &[Interval],
    scripts: &[Script],
) -> Result<Vec<Warning>, Memory>
    requires { All AreEnds exact.now }
    ensures { IfOk result (λ v. v.items ≡ warnings_of line.now exact.now scripts.now) }
{
    let mut list = line_warnings(alloc, line, exact)?;
    push_shown(&mut list, line, scripts)?;
    Ok(list)
}
