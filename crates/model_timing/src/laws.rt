//! The laws of timings.

ghost use Rattle.std.specs.Prelude.{◌≡◌, ◌<◌, ◌↔◌, ℕ, List, [], ◌∷◌, IsTrue};
ghost use Rattle.std.specs.List.{All};
ghost use Rattle.model_line.specs.{declared.line.Line.Line, declared.script.Script.Script};
ghost use Rattle.model_logic.specs.Choice.{Choice, DelaysFromOne, IsInside};
ghost use Rattle.model_logic.specs.Histories.{History, IsLineHistory};
ghost use Rattle.model_timing.specs.Timing.{TimingValues, ascend, number_at, IsLatest, HasNoStepBy};
ghost use Rattle.model_timing.specs.Inside.{IsTimingInside};
ghost use Rattle.model_timing.specs.Choice.{timing_choice, IsSameChoice};
ghost use Rattle.model_timing.specs.Laws.{CandidatesAreInside, TimingsInsideAreChoicesInside};
ghost use Rattle.model_timing.specs.declared.step.Step.{Step};

use model_history::element_laws::elements_read_the_past;
use model_line::laws::{delays_are_parameters, settings_are_counted};
use model_logic::laws::{each_line_has_a_choice_inside, trees_name_the_line};

/// Each candidate is inside the declared intervals.
pub fn candidates_are_inside()
    ensures { CandidatesAreInside }
{}

/// The choice of delays that a timing inside stands for lies in the declared intervals, at every
/// tick.
pub fn timings_inside_are_choices_inside()
    ensures { TimingsInsideAreChoicesInside }
{}

/// Over ascending steps the number of a parameter at a tick is the value of its step with the
/// greatest tick not after it, and its own where it has no such step.
pub fn the_latest_step_counts()
    ensures latest { (steps : List (Step ℕ)) (step : Step ℕ) (t own : ℕ) →
        IsTrue (ascend steps) → IsLatest steps step t →
        number_at steps step.param t own ≡ step.value }
    ensures own { (steps : List (Step ℕ)) (param t own : ℕ) →
        HasNoStepBy steps param t → number_at steps param t own ≡ own }
{}

/// Two choices of delays that are the same over the run have the same histories.
pub fn same_choices_have_the_same_histories()
    ensures { (line : Line) (script : Script) (a b : Choice) (h : History) →
        DelaysFromOne line a → DelaysFromOne line b → IsSameChoice line a b →
        IsLineHistory line script a h → IsLineHistory line script b h }
{
    elements_read_the_past();
    trees_name_the_line();
}

/// Each choice of delays inside the declared intervals is, over the run, that of a timing inside:
/// under every script the histories of the choice are those of the timing.
pub fn each_choice_inside_is_a_timing()
    ensures choice { (line : Line) (choice : Choice) → IsInside line choice →
        (timing : TimingValues) × IsTimingInside line timing × IsTrue (ascend timing.steps)
        × IsSameChoice line choice (timing_choice line timing) }
    ensures histories { (line : Line) (choice : Choice) → IsInside line choice →
        (timing : TimingValues) × IsTimingInside line timing × IsTrue (ascend timing.steps)
        × ((script : Script) (h : History) → IsLineHistory line script choice h
        ↔ IsLineHistory line script (timing_choice line timing) h) }
{
    each_line_has_a_choice_inside();
    settings_are_counted();
    delays_are_parameters();
    elements_read_the_past();
    trees_name_the_line();
}
