//! A run.

ghost use Rattle.std.specs.Prelude.{◌≡◌, ℕ, ◌<◌, length, IfOk, IsTrue};
ghost use Rattle.model_line.specs.Parameters.{param_count};
ghost use Rattle.model_logic.specs.Choice.{Choice};
ghost use Rattle.model_timing.specs.Timing.{ascend};
ghost use Rattle.run_step.specs.Runs.{AreDelayed, AreWavesOf, HavePairs, IsTheHistory};
ghost use Rattle.run_step.specs.Runs.{CoverChoices, IsPoint, IsExactAt};
ghost use Rattle.run_step.specs.{LaneBox.lane_box, WavesOf.waves_history};

use crate::net::ticks::run_ticks;
use crate::net::waves::Waves;
use model_line::{Memory, Script};
use model_logic::laws::line_laws;
use model_timing::Step;
use net_gates::Compiled;
use net_gates::laws::gates_stand_for_their_trees;
use run_signal::{Carried, Timed};
use run_step::Run;
use std::alloc::Global;

/// Runs the net of a line over a script, from tick 0 to the horizon. A span stands for each
/// parameter, in the order of the line; a delay has at each tick the span of its step with the
/// greatest `from` not after the tick, else its own.
pub fn run<V: Timed + Carried>(
    alloc: Global,
    compiled: &Compiled<'_>,
    script: &Script,
    spans: &[V::Span],
    steps: &[Step<V::Span>],
) -> Result<Waves<V>, Memory>
    requires spans { length spans.now ≡ param_count compiled.now.line.now }
    requires ascending { IsTrue (ascend steps.now) }
    requires delayed { AreDelayed V.signal compiled.now.line.now spans.now steps.now }
    ensures waves { IfOk result (λ waves. AreWavesOf compiled.now.net.now compiled.now.line.now
        waves) }
    // In each lane each gate has the pairs of its tree over the lane's box and the run's own keys,
    ensures pairs { IfOk result (λ waves. (lane : ℕ) → lane < V.signal.lanes →
        HavePairs V.signal.rails lane compiled.now.line.now script.now
        (lane_box V.signal.ends compiled.now.line.now spans.now steps.now lane)
        compiled.now.net.now waves) }
    // keys and trips are the one interval history over that box,
    ensures history { IfOk result (λ waves. (lane : ℕ) → lane < V.signal.lanes →
        IsTheHistory compiled.now.line.now script.now
        (lane_box V.signal.ends compiled.now.line.now spans.now steps.now lane)
        (waves_history V.signal.rails lane waves)) }
    // the waves cover the history of each choice within it, gate by gate,
    ensures covers { IfOk result (λ waves. (lane : ℕ) → lane < V.signal.lanes →
        CoverChoices V.signal.rails lane compiled.now.line.now script.now
        (lane_box V.signal.ends compiled.now.line.now spans.now steps.now lane)
        compiled.now.net.now waves) }
    // and where it holds one choice alone, keys and trips are the history at that choice.
    ensures exact { IfOk result (λ waves. (lane : ℕ) (choice : Choice) → lane < V.signal.lanes →
        IsPoint compiled.now.line.now
        (lane_box V.signal.ends compiled.now.line.now spans.now steps.now lane) choice →
        IsExactAt compiled.now.line.now script.now choice (waves_history V.signal.rails lane waves)) }
{
    line_laws();
    gates_stand_for_their_trees();
    let width = compiled.net.len();
    let keys = Vec::from_slice(alloc, compiled.net.key_gates())?;
    let trips = Vec::from_slice(alloc, compiled.net.trip_gates())?;
    let run = Run {
        compiled,
        spans,
        steps,
    };
    let values = run_ticks::<V>(alloc, &run, script)?;
    Ok(Waves::new(width, compiled.line.horizon, values, keys, trips))
}
