//! Blocks of 64 candidates, which run side by side.

ghost use Rattle.std.specs.Prelude.{◌<◌, IfOk};
ghost use Rattle.model_line.specs.Parameters.{terminal_count};
ghost use Rattle.model_logic.specs.Histories.{IsSameHistory};
ghost use Rattle.model_timing.specs.Candidates.{candidate_count as count_of};
ghost use Rattle.run_changes.specs.changes.PlayedTracks.{played};
ghost use Rattle.run_step.specs.Ticks.{AreSent};
ghost use Rattle.judge_match.specs.matching.Candidates.{TellGiving};
ghost use Rattle.judge_match.specs.{declared.matching.seen.Seen.Seen, matching.Seen.seen_history};

use model_line::laws::parameters_are_numbered;
use model_line::{Memory, Script};
use model_logic::laws::each_line_has_a_choice_inside;
use model_timing::{
    Step, candidate_spans, candidates_are_inside, timings_inside_are_choices_inside,
};
use net_gates::Compiled;
use run_changes::changes::{Tracks, agreeing_lanes};
use run_signal::{Lanes64, Level, Ticks64};
use std::alloc::Global;

/// The lanes of a block whose candidates give a record. The run ends where none does any more.
pub fn giving_lanes(
    alloc: Global,
    compiled: &Compiled<'_>,
    script: &Script,
    first: u32,
    recorded: &Tracks<Level>,
) -> Result<Lanes64, Memory>
    requires first { first < count_of compiled.now.line.now }
    requires keys { AreSent (terminal_count compiled.now.line.now) compiled.now.line.now.horizon
        compiled.now.line.now.horizon
        recorded.now.keys.items }
    requires trips { AreSent (terminal_count compiled.now.line.now) compiled.now.line.now.horizon
        compiled.now.line.now.horizon
        recorded.now.trips.items }
    ensures { IfOk result (λ lanes. (seen : Seen) → IsSameHistory compiled.now.line.now
        (played recorded.now.keys.items recorded.now.trips.items) (seen_history seen) →
        TellGiving compiled.now.line.now script.now seen first lanes) }
{
    candidates_are_inside();
    timings_inside_are_choices_inside();
    each_line_has_a_choice_inside();
    parameters_are_numbered();
    let spans = candidate_spans(alloc, compiled.line, first)?;
    let steps: [Step<Ticks64>; 0] = [];
    let lanes = agreeing_lanes::<Lanes64>(alloc, compiled, script, &spans, &steps, recorded)?;
    Ok(lanes)
}
