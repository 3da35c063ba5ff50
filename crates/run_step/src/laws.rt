//! The laws of runs: what a run over a timing stands for, what a gate's pair is, and for how long it
//! stays.
#![tactic(auto)]

ghost use Rattle.std.specs.Prelude.{ℕ, ◌≤◌, ◌<◌, ◌+◌, List, length};
ghost use Rattle.model_history.specs.Rails.{Rails, Ends};
ghost use Rattle.model_line.specs.{declared.line.Line.Line, Parameters.channel_count};
ghost use Rattle.model_line.specs.declared.script.Script.{Script};
ghost use Rattle.model_logic.specs.Histories.{History, IsLineHistory, IsSameHistory};
ghost use Rattle.model_logic.specs.PairMean.{PairWorld, PairSignals};
ghost use Rattle.model_logic.specs.Choice.{DelaysFromOne};
ghost use Rattle.model_timing.specs.Timing.{TimingValues};
ghost use Rattle.model_timing.specs.{Inside.IsTimingInside, Choice.timing_choice};
ghost use Rattle.run_step.specs.LaneBox.{lane_box};
ghost use Rattle.run_step.specs.GatePairs.{GatesHaveTheirKind, GateSignals};
ghost use Rattle.run_step.specs.Quiet.{Keeps, SourcesKeep, AreGatePairs, EndKeeps};
ghost use Rattle.run_step.specs.Quiet.{ArrivalKeeps};
ghost use Rattle.run_signal.specs.Levels.{level_signal};
ghost use Rattle.run_step.specs.{Played.ends_of_tick, Runs.AreDelayed, Runs.IsPoint};
ghost use Rattle.net_gates.specs.{declared.gate.Gate.Gate, Gates.AreGates, Named.NamedFrom};

use model_history::laws::history_laws;
use model_logic::laws::line_laws;
use model_timing::timings_inside_are_choices_inside;
use net_gates::laws::gates_stand_for_their_trees;
use run_signal::elements_stay_in_a_stretch;

/// A run whose spans and steps are the numbers and the steps of a timing inside the declared
/// intervals is a run at exactly the choice of delays that the timing stands for, and that choice
/// has, under each script, one history.
pub fn a_timing_is_one_choice()
    // The box of the numbers and steps holds the timing's choice alone,
    ensures point { (line : Line) (timing : TimingValues) (lane : ℕ) →
        IsTimingInside line timing →
        IsPoint line (lane_box ends_of_tick line timing.values timing.steps lane)
        (timing_choice line timing) }
    // as a run asks, each delay in it is at least 1,
    ensures delayed { (line : Line) (timing : TimingValues) → IsTimingInside line timing →
        AreDelayed level_signal line timing.values timing.steps }
    ensures choice { (line : Line) (timing : TimingValues) → IsTimingInside line timing →
        DelaysFromOne line (timing_choice line timing) }
    // and the choice has one history.
    ensures history { (line : Line) (script : Script) (timing : TimingValues) →
        IsTimingInside line timing →
        (h : History) × IsLineHistory line script (timing_choice line timing) h
        × ((other : History) → IsLineHistory line script (timing_choice line timing) other →
        IsSameHistory line h other) }
{
    line_laws();
    timings_inside_are_choices_inside();
}

/// The pair of a gate is that of its own kind over the pairs of its arguments.
pub fn gates_have_their_kind()
    ensures { GatesHaveTheirKind }
{
    gates_stand_for_their_trees();
}

/// If what is seen and lost, the delays, what arrives while the keys are held on, and the answers
/// of the timers while their inputs stay, all stay the same for a stretch of ticks, then so does
/// every gate.
pub fn quiet_sources_keep_every_gate()
    ensures { (line : Line) (w : PairWorld) (keys : PairSignals) (u : GateSignals) (t n : ℕ)
        (gates : List Gate) → AreGates gates → NamedFrom line 0 gates →
        AreGatePairs w keys u (channel_count line) line.horizon gates →
        SourcesKeep w keys u (channel_count line) gates t n → t + n ≤ line.horizon →
        (i : ℕ) → i < length gates → Keeps (u i) t n }
{
    elements_stay_in_a_stretch();
}

/// Where what was sent at both ends of a delay stays the same, so does what arrives.
pub fn arrivals_keep_between_changes()
    ensures { (key : ℕ → Rails) (ends : Ends) (t n : ℕ) → EndKeeps key ends.least t n →
        EndKeeps key ends.greatest t n → ArrivalKeeps key ends t n }
{
    history_laws();
}
