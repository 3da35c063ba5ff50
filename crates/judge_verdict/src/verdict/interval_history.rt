//! The interval history of the declared intervals.

ghost use Rattle.std.specs.Prelude.{◌≡◌, IfOk};
ghost use Rattle.model_line.specs.Parameters.{terminal_count};
ghost use Rattle.model_logic.specs.Choice.{Choice, IsInside, declared_box};
ghost use Rattle.model_logic.specs.Histories.{History, IsLineHistory, CoversHistory};
ghost use Rattle.run_step.specs.Runs.{IsTheHistory};
ghost use Rattle.judge_verdict.specs.verdict.PairWavesOf.{pair_history};

use crate::verdict::pair_waves::PairWaves;
use crate::verdict::spans::declared_spans;
use crate::verdict::track_waves::track_waves;
use model_line::{Memory, Script};
use model_logic::laws::{
    a_wider_box_covers, each_box_has_one_interval_history, each_line_has_a_choice_inside,
    trees_name_the_line, values_rest_on_earlier_keys,
};
use model_timing::Step;
use net_gates::Compiled;
use run_changes::changes::run_tracks;
use run_signal::{Tern, Within};
use std::alloc::Global;

/// Runs the net of a line over a script, for all choices of delays in the declared intervals at
/// once.
pub fn analyse(alloc: Global, compiled: &Compiled<'_>, script: &Script) -> Result<PairWaves, Memory>
    ensures terminals { IfOk result (λ w. w.terminals ≡ terminal_count compiled.now.line.now) }
    ensures horizon { IfOk result (λ w. w.horizon ≡ compiled.now.line.now.horizon) }
    // The waves are the one interval history over the declared intervals,
    ensures history { IfOk result (λ w.
        IsTheHistory compiled.now.line.now script.now (declared_box compiled.now.line.now)
        (pair_history w)) }
    // and they cover the history of each choice inside.
    ensures covers { IfOk result (λ w. (choice : Choice) (h : History) →
        IsInside compiled.now.line.now choice → IsLineHistory compiled.now.line.now script.now
        choice h →
        CoversHistory compiled.now.line.now (pair_history w) h) }
{
    each_line_has_a_choice_inside();
    each_box_has_one_interval_history();
    a_wider_box_covers();
    trees_name_the_line();
    values_rest_on_earlier_keys();
    let spans = declared_spans(alloc, compiled.line)?;
    let steps: [Step<Within>; 0] = [];
    let tracks = run_tracks::<Tern>(alloc, compiled, script, &spans, &steps)?;
    let keys = track_waves(alloc, &tracks.keys, compiled.line.horizon)?;
    let trips = track_waves(alloc, &tracks.trips, compiled.line.horizon)?;
    Ok(PairWaves::new(compiled.line.horizon, keys, trips))
}
