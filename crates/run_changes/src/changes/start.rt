//! What a run from change to change keeps before the first tick.

ghost use Rattle.std.specs.Prelude.{◌≡◌, ℕ, ◌<◌, length, IfOk};
ghost use Rattle.model_line.specs.Parameters.{param_count};
ghost use Rattle.model_logic.specs.declared.time.Time.{Time};
ghost use Rattle.run_changes.specs.{changes.Tracks.CanTake, changes.Tracks.IsKeptOf};
ghost use Rattle.run_step.specs.Lanes.{LanePairs};
ghost use Rattle.run_changes.specs.{changes.Lags.AreAtGate, changes.Lags.AllWait};
ghost use Rattle.run_step.specs.{LaneBox.time_ends, Ticks.AreFresh};

use crate::changes::gates::Gates;
use crate::changes::kept::Kept;
use crate::changes::marks::fresh_marks;
use crate::changes::shown_by::fresh_shown;
use crate::changes::since::Since;
use crate::changes::tracks::Tracks;
use model_line::{Memory, Script};
use model_logic::laws::line_laws;
use net_gates::Compiled;
use run_signal::{Carried, Signal, Timed};
use run_step::{Delays, Run, fresh_cells, fresh_delays, fresh_list, fresh_tracks};
use std::alloc::Global;

/// What is kept before tick 0. All memory of a run is taken here.
pub fn fresh_kept<V: Timed + Carried>(
    alloc: Global,
    run: &Run<'_, V::Span>,
    script: &Script,
) -> Result<Kept<V::Cells, V, V::Span>, Memory>
    requires spans { length run.now.spans.now ≡ param_count run.now.compiled.now.line.now }
    ensures can { IfOk result (λ kept. CanTake V.signal run.now 0 kept) }
    ensures stands { IfOk result (λ kept. IsKeptOf V.signal V.stands_for run.now script.now 0 kept) }
{
    line_laws();
    let delays = fresh_delays::<V>(alloc, run.compiled.line, run.spans)?;
    let shown = fresh_shown(alloc, run.compiled.net, script)?;
    let tracks = empty_tracks::<V>(alloc, run.compiled)?;
    let gates = fresh_gates::<V>(alloc, run)?;
    Ok(Kept {
        gates,
        shown,
        delays: Delays {
            list: delays,
            until: 0,
        },
        keys: tracks.keys,
        trips: tracks.trips,
    })
}

// A track with no values for each key and each trip.
fn empty_tracks<V: Signal>(alloc: Global, compiled: &Compiled<'_>) -> Result<Tracks<V>, Memory>
    ensures keys { IfOk result (λ tracks. AreFresh (length compiled.now.net.now.keys)
        compiled.now.line.now.horizon tracks.keys.items) }
    ensures trips { IfOk result (λ tracks. AreFresh (length compiled.now.net.now.trips)
        compiled.now.line.now.horizon tracks.trips.items) }
{
    let horizon = compiled.line.horizon;
    let keys = fresh_tracks::<V>(alloc, compiled.net.key_gates().len() as u32, horizon)?;
    let trips = fresh_tracks::<V>(alloc, compiled.net.trip_gates().len() as u32, horizon)?;
    Ok(Tracks { keys, trips })
}

// What is kept of the gates before tick 0.
fn fresh_gates<V: Timed + Carried>(
    alloc: Global,
    run: &Run<'_, V::Span>,
) -> Result<Gates<V::Cells, V, V::Span>, Memory>
    requires spans { length run.now.spans.now ≡ param_count run.now.compiled.now.line.now }
    ensures gates { IfOk result (λ gates. AreAtGate run.now.compiled.now.net.now 0 0 gates) }
    ensures horizon { IfOk result (λ gates. gates.marks.horizon
        ≡ run.now.compiled.now.line.now.horizon) }
    ensures next { IfOk result (λ gates. gates.marks.next ≡ 0) }
    ensures wait { IfOk result (λ gates. (lane : ℕ) (p : LanePairs) → lane < V.signal.lanes →
        ((x : Time) → p.world.time x ≡ time_ends V.signal.ends lane run.now.spans.now x) →
        AllWait V.signal V.stands_for lane p 0 run.now.compiled.now.net.now.gates gates) }
{
    let since = Since {
        fed: 0,
        input: V::known(false),
    };
    let count = run.compiled.net.len();
    let sinces = fresh_list(alloc, count, since)?;
    let dues = fresh_list(alloc, count, 0u32)?;
    let column = fresh_list(alloc, count, V::known(false))?;
    let cells = fresh_cells::<V>(alloc, run.compiled.net, run.compiled.line, run.spans)?;
    let marks = fresh_marks(alloc, count, run.compiled.line.horizon)?;
    Ok(Gates {
        cells,
        sinces,
        dues,
        marks,
        column,
    })
}
