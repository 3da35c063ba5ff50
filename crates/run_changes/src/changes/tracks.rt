//! A run from one tick at which some gate may change to the next.

ghost use Rattle.std.specs.Prelude.{◌≡◌, ℕ, ◌<◌, ◌≤◌, length, IfOk, IsTrue};
ghost use Rattle.model_line.specs.{declared.script.Script.Script, Parameters.param_count};
ghost use Rattle.model_logic.specs.Choice.{Choice};
ghost use Rattle.model_timing.specs.Timing.{ascend};
ghost use Rattle.run_step.specs.Runs.{CanRun, AreDelayed, IsTheHistory, IsPoint, IsExactAt};
ghost use Rattle.run_changes.specs.changes.Tracks.{CanTake, IsKeptOf, tracks_history};
ghost use Rattle.run_step.specs.{LaneBox.lane_box, Ticks.AreSent};
ghost use Rattle.run_changes.specs.changes.Until.{AreExactBelow, ReachTick};

use crate::changes::kept::Kept;
use crate::changes::start::fresh_kept;
use crate::changes::stretch::take_stretch;
use model_history::laws::history_laws;
use model_line::{Memory, Script};
use model_logic::laws::line_laws;
use model_timing::Step;
use net_gates::Compiled;
use net_gates::laws::gates_stand_for_their_trees;
use run_signal::{Carried, Signal, Timed, Track};
use run_step::Run;
use std::alloc::Global;

/// What each terminal keys, and whether it trips, in the order of the line.
#[derive(Drop)]
pub struct Tracks<V: Signal> {
    pub keys: Vec<Track<V>>,
    pub trips: Vec<Track<V>>,
}

/// Runs the net of a line over a script as `run` does, from one tick at which some gate may change
/// to the next, and keeps keys and trips alone: quiet ticks cost next to nothing. A span stands for
/// each parameter, in the order of the line; a delay has at each tick the span of its step with the
/// greatest `from` not after the tick, else its own.
pub fn run_tracks<V: Timed + Carried>(
    alloc: Global,
    compiled: &Compiled<'_>,
    script: &Script,
    spans: &[V::Span],
    steps: &[Step<V::Span>],
) -> Result<Tracks<V>, Memory>
    requires spans { length spans.now ≡ param_count compiled.now.line.now }
    requires ascending { IsTrue (ascend steps.now) }
    requires delayed { AreDelayed V.signal compiled.now.line.now spans.now steps.now }
    // There is a value for each terminal and tick.
    ensures keys { IfOk result (λ tracks.
        AreSent (length compiled.now.net.now.keys) compiled.now.line.now.horizon
        compiled.now.line.now.horizon tracks.keys.items) }
    ensures trips { IfOk result (λ tracks.
        AreSent (length compiled.now.net.now.trips) compiled.now.line.now.horizon
        compiled.now.line.now.horizon tracks.trips.items) }
    // In each lane keys and trips are the one interval history over the lane's box,
    ensures history { IfOk result (λ tracks. (lane : ℕ) → lane < V.signal.lanes →
        IsTheHistory compiled.now.line.now script.now
        (lane_box V.signal.ends compiled.now.line.now spans.now steps.now lane)
        (tracks_history V.signal.rails lane tracks.keys.items tracks.trips.items)) }
    // and where it holds one choice alone, they are the history at that choice.
    ensures exact { IfOk result (λ tracks. (lane : ℕ) (choice : Choice) → lane < V.signal.lanes →
        IsPoint compiled.now.line.now
        (lane_box V.signal.ends compiled.now.line.now spans.now steps.now lane) choice →
        IsExactAt compiled.now.line.now script.now choice
        (tracks_history V.signal.rails lane tracks.keys.items tracks.trips.items)) }
{
    line_laws();
    gates_stand_for_their_trees();
    history_laws();
    let run = Run {
        compiled,
        spans,
        steps,
    };
    let mut kept = fresh_kept::<V>(alloc, &run, script)?;
    take_until::<V>(&run, &mut kept, compiled.line.horizon);
    Ok(Tracks {
        keys: kept.keys,
        trips: kept.trips,
    })
}

/// Runs as `run_tracks` does, at least up to a tick: keys and trips at the ticks below it.
pub fn run_tracks_until<V: Timed + Carried>(
    alloc: Global,
    compiled: &Compiled<'_>,
    script: &Script,
    spans: &[V::Span],
    steps: &[Step<V::Span>],
    until: u32,
) -> Result<Tracks<V>, Memory>
    requires spans { length spans.now ≡ param_count compiled.now.line.now }
    requires ascending { IsTrue (ascend steps.now) }
    requires delayed { AreDelayed V.signal compiled.now.line.now spans.now steps.now }
    requires inside { until ≤ compiled.now.line.now.horizon }
    // There is a value for each terminal and each tick below.
    ensures keys { IfOk result (λ tracks. ReachTick (length compiled.now.net.now.keys) until
        tracks.keys.items) }
    ensures trips { IfOk result (λ tracks.
        ReachTick (length compiled.now.net.now.trips) until tracks.trips.items) }
    // Where a lane's box holds one choice alone, at these ticks they are each history at it.
    ensures exact { IfOk result (λ tracks. (lane : ℕ) (choice : Choice) → lane < V.signal.lanes →
        IsPoint compiled.now.line.now
        (lane_box V.signal.ends compiled.now.line.now spans.now steps.now lane) choice →
        AreExactBelow compiled.now.line.now script.now choice until
        (tracks_history V.signal.rails lane tracks.keys.items tracks.trips.items)) }
{
    line_laws();
    gates_stand_for_their_trees();
    history_laws();
    let run = Run {
        compiled,
        spans,
        steps,
    };
    let mut kept = fresh_kept::<V>(alloc, &run, script)?;
    take_until::<V>(&run, &mut kept, until);
    Ok(Tracks {
        keys: kept.keys,
        trips: kept.trips,
    })
}

// Takes ticks until this one is reached, and answers the tick that comes next.
fn take_until<V: Timed + Carried>(
    run: &Run<'_, V::Span>,
    kept: &mut Kept<V::Cells, V, V::Span>,
    until: u32,
) -> u32
    requires can { CanRun V.signal run.now }
    requires kept { CanTake V.signal run.now 0 kept.old }
    requires inside { until ≤ run.now.compiled.now.line.now.horizon }
    ensures reached { until ≤ result }
    ensures fits { result ≤ run.now.compiled.now.line.now.horizon }
    ensures kept { CanTake V.signal run.now result kept.new }
    ensures stands { (script : Script) →
        IsKeptOf V.signal V.stands_for run.now script 0 kept.old →
        IsKeptOf V.signal V.stands_for run.now script result kept.new }
{
    let mut t = 0;
    while t < until {
        t += take_stretch::<V>(run, kept, t);
    }
    t
}
