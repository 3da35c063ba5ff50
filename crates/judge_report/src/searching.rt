//! The search for the margin.

ghost use Rattle.std.specs.Prelude.{◌≡◌, ◌≤◌, ◌<◌, ℕ, Some, length, slice_get, IfOk};
ghost use Rattle.std.specs.List.{All};
ghost use Rattle.model_line.specs.Parameters.{terminal_count, param_count, declared_ends};
ghost use Rattle.model_line.specs.{declared.script.Script.Script, Fits.Fits};
ghost use Rattle.model_logic.specs.Choice.{Choice, IsWithin};
ghost use Rattle.model_logic.specs.Histories.{History, IsLineHistory, Meets};
ghost use Rattle.judge_report.specs.Raised.{raised};
ghost use Rattle.judge_report.specs.Margin.{IsUpperEnd, IsMargin, IsBracket, IsHeldTo, IsLostAt};

use crate::known::laws_below;
use crate::laws::what_is_held_to_a_number_is_met;
use crate::loss::lost_at;
use crate::upper_end::{Lost, UpperEnd};
use model_line::{Memory, Script};
use net_gates::Compiled;
use std::alloc::Global;

/// The greatest number of a parameter, up to 4,000, over which the rule of every script is held at
/// every terminal, and the first obligation that is lost one above it.
pub fn margin(
    alloc: Global,
    compiled: &Compiled<'_>,
    scripts: &[Script],
    param: u32,
) -> Result<UpperEnd, Memory>
    requires fit { All (Fits compiled.now.line.now) scripts.now }
    requires few { length scripts.now ≤ 64 }
    requires exists { param < param_count compiled.now.line.now }
    ensures margin { IfOk result (λ end. IsUpperEnd compiled.now.line.now scripts.now param end) }
    // Up to the margin each history of each choice meets every obligation.
    ensures met { IfOk result (λ end. (v s k : ℕ) (script : Script) → end.greatest ≡ Some v →
        slice_get scripts.now s ≡ Some script → k < terminal_count compiled.now.line.now →
        (choice : Choice) (h : History) → IsWithin compiled.now.line.now choice
        (raised compiled.now.line.now param v) →
        IsLineHistory compiled.now.line.now script choice h → Meets compiled.now.line.now script k
        h) }
{
    laws_below();
    what_is_held_to_a_number_is_met();
    let least = compiled.line.least(param);
    if let Some(lost) = lost_at(alloc, compiled, scripts, param, least)? {
        return Ok(UpperEnd {
            greatest: None,
            lost: Some(lost),
        });
    }
    match lost_at(alloc, compiled, scripts, param, 4000)? {
        None => Ok(UpperEnd {
            greatest: Some(4000),
            lost: None,
        }),
        Some(lost) => between(alloc, compiled, scripts, param, least, lost),
    }
}

// The margin between a number to which all is held and 4000, at which this obligation is lost.
fn between(
    alloc: Global,
    compiled: &Compiled<'_>,
    scripts: &[Script],
    param: u32,
    held: u32,
    lost: Lost,
) -> Result<UpperEnd, Memory>
    requires fit { All (Fits compiled.now.line.now) scripts.now }
    requires few { length scripts.now ≤ 64 }
    requires exists { param < param_count compiled.now.line.now }
    requires bracket { IsBracket compiled.now.line.now scripts.now param held 4000 lost }
    ensures { IfOk result (λ end. IsUpperEnd compiled.now.line.now scripts.now param end) }
{
    laws_below();
    let mut low = held;
    let mut high = 4000;
    let mut lost = lost;
    'halving: while high - low > 1 {
        let mid = (low + high) / 2;
        match lost_at(alloc, compiled, scripts, param, mid)? {
            None => low = mid,
            Some(earlier) => {
                high = mid;
                lost = earlier;
            }
        }
    }
    Ok(UpperEnd {
        greatest: Some(low),
        lost: Some(lost),
    })
}
