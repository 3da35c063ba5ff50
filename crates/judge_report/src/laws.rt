//! The laws of margins.

ghost use Rattle.std.specs.Prelude.{◌≡◌, ◌≤◌, ◌<◌, ℕ, List, Some, slice_get};
ghost use Rattle.std.specs.List.{All};
ghost use Rattle.model_line.specs.Parameters.{terminal_count, param_count};
ghost use Rattle.model_line.specs.Fits.{Fits};
ghost use Rattle.model_line.specs.{declared.line.Line.Line, declared.script.Script.Script};
ghost use Rattle.model_logic.specs.Histories.{History, IsLineHistory, Meets};
ghost use Rattle.model_logic.specs.Choice.{Choice, IsWithin};
ghost use Rattle.judge_report.specs.Margin.{IsHeldTo, IsUpperEnd};
ghost use Rattle.judge_report.specs.{Raised.raised, declared.upper_end.UpperEnd.UpperEnd};

use crate::known::laws_below;

/// Where every rule is held over the box up to a number of a parameter, it is held up to each
/// smaller one.
pub fn what_is_held_to_a_number_is_held_below()
    ensures { (line : Line) (scripts : List Script) (param u v : ℕ) → All (Fits line) scripts →
        param < param_count line → u ≤ v → IsHeldTo line scripts param v →
        IsHeldTo line scripts param u }
{
    laws_below();
}

/// And every history of every choice in that box meets every obligation.
pub fn what_is_held_to_a_number_is_met()
    ensures { (line : Line) (scripts : List Script) (param v s k : ℕ) (script : Script) →
        All (Fits line) scripts → IsHeldTo line scripts param v →
        slice_get scripts s ≡ Some script → k < terminal_count line →
        (choice : Choice) (h : History) → IsWithin line choice (raised line param v) →
        IsLineHistory line script choice h → Meets line script k h }
{
    laws_below();
}

/// A parameter has at most one margin, with at most one obligation that is lost.
pub fn a_parameter_has_one_margin()
    ensures { (line : Line) (scripts : List Script) (param : ℕ) (a b : UpperEnd) →
        IsUpperEnd line scripts param a → IsUpperEnd line scripts param b → a ≡ b }
{}
