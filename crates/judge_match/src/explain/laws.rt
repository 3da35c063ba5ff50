//! The laws of records that are explained.

ghost use Rattle.std.specs.Prelude.{◌≡◌, ◌<◌, ℕ, Bool};
ghost use Rattle.model_line.specs.{declared.line.Line.Line, declared.script.Script.Script};
ghost use Rattle.model_logic.specs.Histories.{History};
ghost use Rattle.judge_match.specs.explain.Changes.{HaveSameChanges, StaysAround};
ghost use Rattle.judge_match.specs.explain.Explains.{NoneExplains};
ghost use Rattle.judge_match.specs.explain.Parts.{AreExcluded, PartTree, declared_part};

use model_logic::laws::line_laws;
use run_step::laws::a_timing_is_one_choice;

/// A signal with the changes of another, each at most so many ticks away, has at a tick the level
/// that the other keeps around it.
pub fn what_is_kept_around_a_tick_is_so()
    ensures { (within n : ℕ) (u v : ℕ → Bool) (t : ℕ) (level : Bool) →
        HaveSameChanges within n u v → t < n → StaysAround within n u t level → v t ≡ level }
{}

/// Where each leaf of a tree of parts of the declared intervals is excluded, no timing inside explains
/// the record.
pub fn excluded_trees_explain_nothing()
    ensures { (line : Line) (script : Script) (within : ℕ) (recorded : History)
        (tree : PartTree) → AreExcluded line script within recorded (declared_part line) tree →
        NoneExplains line script within recorded }
{
    line_laws();
    a_timing_is_one_choice();
}
