//! The laws of margins.

ghost use Rattle.std.specs.Prelude.{◌≡◌, ◌≤◌, ◌<◌, ℕ, List, Some, slice_get};
ghost use Rattle.std.specs.List.{All};
ghost use Rattle.model_line.specs.{Fits.Fits};
ghost use Rattle.model_line.specs.{declared.line.Line.Line, declared.script.Script.Script};
ghost use Rattle.model_logic.specs.Choice.{Choice, IsWithin};
ghost use Rattle.model_logic.specs.Histories.{History, IsLineHistory, Meets};
ghost use Rattle.judge_report.specs.declared.upper_end.Lost.{Lost as LostOf};
ghost use Rattle.judge_margins.specs.margins.Ends.{AreKeptTo, IsEnd};
ghost use Rattle.judge_margins.specs.{margins.Kept.AreObligations, margins.Widened.room, margins.Widened.widened};
ghost use Rattle.judge_margins.specs.declared.margins.end.Side.{Side as SideOf};
ghost use Rattle.judge_margins.specs.declared.margins.end.End.{End as EndOf};

use crate::margins::known::laws_below;

/// Where obligations are held with an end moved outward, they are held with it moved less.
pub fn what_is_held_further_is_held_nearer()
    ensures { (line : Line) (scripts : List Script) (obligations : List LostOf) (n param : ℕ)
        (side : SideOf) (u v : ℕ) → All (Fits line) scripts →
        AreObligations line scripts obligations → u ≤ v → v ≤ room line param side →
        AreKeptTo line scripts obligations n param side v →
        AreKeptTo line scripts obligations n param side u }
{
    laws_below();
}

/// And every history of every choice in that box meets each of them.
pub fn what_is_held_with_an_end_moved_is_met()
    ensures { (line : Line) (scripts : List Script) (obligations : List LostOf) (n param : ℕ)
        (side : SideOf) (v i : ℕ) (o : LostOf) (script : Script) → All (Fits line) scripts →
        AreObligations line scripts obligations → v ≤ room line param side →
        AreKeptTo line scripts obligations n param side v → i < n →
        slice_get obligations i ≡ Some o → slice_get scripts o.script ≡ Some script →
        (choice : Choice) (h : History) → IsWithin line choice (widened line param side v) →
        IsLineHistory line script choice h → Meets line script o.terminal h }
{
    laws_below();
}

/// An end has one slack, and one obligation at most is lost first beyond it.
pub fn an_end_has_one_slack()
    ensures { (line : Line) (scripts : List Script) (obligations : List LostOf) (n param : ℕ)
        (side : SideOf) (a b : EndOf) → IsEnd line scripts obligations n param side a →
        IsEnd line scripts obligations n param side b → a ≡ b }
{}
