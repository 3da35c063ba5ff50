//! Cells and tracks before the first tick.

ghost use Rattle.std.specs.Prelude.{◌≡◌, ℕ, [], ◌<◌, ◌≤◌, length, replicate, IfOk};
ghost use Rattle.model_logic.specs.{declared.time.Time.Time, PairMean.PairWorld};
ghost use Rattle.model_line.specs.Parameters.{param_count};
ghost use Rattle.net_gates.specs.Named.{GateNames, NamedFrom};
ghost use Rattle.run_step.specs.CellStands.{HasCell, CellStands, HasTimer, TimerStands};
ghost use Rattle.run_step.specs.Ticks.{HaveCells, AllStand, AreFresh};
ghost use Rattle.run_step.specs.{LaneBox.time_ends, GatePairs.GateSignals};

use crate::cell::Cell;
use crate::spans::time_span;
use model_line::{Line, Memory};
use net_gates::{Gate, GateId, Net};
use run_signal::{SealCell, Signal, Timed, Track};
use std::alloc::Global;

// A gate's cell.
fn fresh_cell<V: Timed>(
    gate: &Gate,
    line: &Line,
    spans: &[V::Span],
) -> Cell<V::Cells, SealCell<V>, V::Span>
    requires names { GateNames line.now gate.now }
    requires spans { length spans.now ≡ param_count line.now }
    ensures shape { HasCell gate.now result }
    ensures stands { (lane : ℕ) (w : PairWorld) (u : GateSignals) → lane < V.signal.lanes →
        ((x : Time) → w.time x ≡ time_ends V.signal.ends lane spans.now x) →
        CellStands V.signal V.stands_for lane w u 0 gate.now result }
{
    match *gate {
        Gate::Timer(_, pickup, dropout) => fresh_timer::<V>(
            time_span::<V>(line, spans, pickup),
            time_span::<V>(line, spans, dropout),
        ),
        Gate::Seal(_, _) => Cell::Seal(SealCell::new()),
        _ => Cell::Nothing,
    }
}

/// A cell for each gate.
pub fn fresh_cells<V: Timed>(
    alloc: Global,
    net: &Net,
    line: &Line,
    spans: &[V::Span],
) -> Result<Vec<Cell<V::Cells, SealCell<V>, V::Span>>, Memory>
    requires names { NamedFrom line.now 0 net.now.gates }
    requires spans { length spans.now ≡ param_count line.now }
    ensures shape { IfOk result (λ cells. HaveCells net.now.gates cells.items) }
    ensures stands { IfOk result (λ cells.
        (lane : ℕ) (w : PairWorld) (u : GateSignals) → lane < V.signal.lanes →
        ((x : Time) → w.time x ≡ time_ends V.signal.ends lane spans.now x) →
        AllStand V.signal V.stands_for lane w u 0 net.now.gates cells.items) }
{
    let mut cells = Vec::with_capacity(alloc, net.len() as usize)?;
    for i in 0..net.len() {
        cells.push_reserved(fresh_cell::<V>(net.gate(GateId(i)), line, spans));
    }
    Ok(cells)
}

/// A list of so many of one value.
pub fn fresh_list<T: Copy>(alloc: Global, count: u32, value: T) -> Result<Vec<T>, Memory>
    ensures { IfOk result (λ list. list.items ≡ replicate count value) }
{
    let mut list = Vec::with_capacity(alloc, count as usize)?;
    list.resize(count as usize, value).unwrap();
    Ok(list)
}

// A track with no values and room up to the horizon.
fn fresh_track<V: Signal>(alloc: Global, horizon: u32) -> Result<Track<V>, Memory>
    requires { horizon ≤ 4000 }
    ensures { IfOk result (λ track. track ≡ record { keys = []; horizon = horizon }) }
{
    match Track::new(alloc, horizon) {
        Ok(track) => Ok(track),
        Err(_) => Err(Memory),
    }
}

/// A track with no values and room up to the horizon for each of so many signals.
pub fn fresh_tracks<V: Signal>(
    alloc: Global,
    count: u32,
    horizon: u32,
) -> Result<Vec<Track<V>>, Memory>
    requires { horizon ≤ 4000 }
    ensures { IfOk result (λ tracks. AreFresh count horizon tracks.items) }
{
    let mut tracks = Vec::new(alloc);
    for _ in 0..count {
        tracks.push(fresh_track::<V>(alloc, horizon)?)?;
    }
    Ok(tracks)
}

// A timer's cell.
fn fresh_timer<V: Timed>(pickup: V::Span, dropout: V::Span) -> Cell<V::Cells, SealCell<V>, V::Span>
    ensures shape { HasTimer result }
    ensures stands { (lane : ℕ) → lane < V.signal.lanes →
        TimerStands V.stands_for V.signal.ends lane (V.signal.ends pickup lane)
        (V.signal.ends dropout lane) [] result }
{
    Cell::Timer(V::fresh(pickup, dropout), pickup, dropout)
}
