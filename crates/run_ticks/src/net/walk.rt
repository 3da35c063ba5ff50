//! One tick of all gates of a net.

ghost use Rattle.std.specs.Prelude.{◌≡◌, ℕ, suc, ◌<◌, ◌≤◌, length, vec_capacity};
ghost use Rattle.model_logic.specs.PairMean.{PairWorld, PairSignals};
ghost use Rattle.net_gates.specs.{Named.NamedFrom};
ghost use Rattle.run_step.specs.{Inputs.IsWorldAt, Moments.CanHear, GatePairs.GateSignals};
ghost use Rattle.run_step.specs.Ticks.{HaveCells, AllStand, ValuesAgree, IsReady};

use model_line::SeenSpan;
use net_gates::{GateId, Net};
use run_signal::{Carried, SealCell, Timed};
use run_step::{Cell, Moment, answer};

/// Takes one tick: the column, which has room for it, gets the value of each gate.
pub fn walk<V: Timed + Carried>(
    net: &Net,
    cells: &mut Vec<Cell<V::Cells, SealCell<V>, V::Span>>,
    column: &mut Vec<V>,
    present: &[SeenSpan],
    moment: &Moment<'_, V, V::Span>,
)
    requires room { length net.now.gates ≤ vec_capacity column.old }
    requires names { NamedFrom moment.now.line.now 0 net.now.gates }
    requires cells { HaveCells net.now.gates cells.old.items }
    requires moment { CanHear V.signal moment.now }
    ensures room { length net.now.gates ≤ vec_capacity column.new }
    ensures count { length column.new.items ≡ length net.now.gates }
    ensures cells { HaveCells net.now.gates cells.new.items }
    ensures stands { (lane : ℕ) (w : PairWorld) (keys : PairSignals) (u : GateSignals) →
        lane < V.signal.lanes →
        IsWorldAt V.signal.ends lane present.now moment.now.delays.now w moment.now.t →
        IsReady V.signal V.stands_for lane w keys u moment.now.t net.now.gates
        moment.now.sent.now cells.old.items →
        AllStand V.signal V.stands_for lane w u (suc moment.now.t) net.now.gates
        cells.new.items }
    ensures answers { (lane : ℕ) (w : PairWorld) (keys : PairSignals) (u : GateSignals) →
        lane < V.signal.lanes →
        IsWorldAt V.signal.ends lane present.now moment.now.delays.now w moment.now.t →
        IsReady V.signal V.stands_for lane w keys u moment.now.t net.now.gates
        moment.now.sent.now cells.old.items →
        ValuesAgree V.signal.rails lane u moment.now.t column.new.items }
{
    column.clear();
    for i in 0..net.len() {
        let value = answer::<V>(
            net.gate(GateId(i)),
            &mut cells[i as usize],
            column.as_slice(),
            present,
            moment,
        );
        column.push_reserved(value);
    }
}
