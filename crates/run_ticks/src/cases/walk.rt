//! One tick of all gates of a net.

ghost use Rattle.std.specs.Prelude.{◌≡◌, ℕ, suc, ◌<◌, ◌≤◌, length, vec_capacity};
ghost use Rattle.model_line.specs.Parameters.{terminal_count};
ghost use Rattle.model_logic.specs.PairMean.{PairWorld, PairSignals};
ghost use Rattle.net_gates.specs.{Named.NamedFrom, Formulas.formula_of};
ghost use Rattle.run_step.specs.GatePairs.{GateSignals};
ghost use Rattle.run_ticks.specs.cases.Given.{CanReceive, IsWorldAt};
ghost use Rattle.run_step.specs.Ticks.{ValuesAgree, AreSent, HaveCells, AllStand};
ghost use Rattle.run_ticks.specs.cases.Masks.{HaveRows, Levels, PutLevels};
ghost use Rattle.run_ticks.specs.cases.Ticks.{IsReady};

use crate::cases::answer::answer;
use crate::cases::delays::Delay;
use crate::cases::mask::{Masks, mask_at, put};
use model_line::{Line, SeenSpan};
use net_gates::{GateId, Net};
use run_signal::{Carried, SealCell, Timed, Track};
use run_step::Cell;

/// Takes one tick: two columns, which have room for it, get each gate's own value, and its value
/// with what is put.
pub fn walk<V: Timed + Carried>(
    net: &Net,
    masks: &Masks<V>,
    cells: &mut Vec<Cell<V::Cells, SealCell<V>, V::Span>>,
    owns: &mut Vec<V>,
    column: &mut Vec<V>,
    line: &Line,
    present: &[SeenSpan],
    delays: &[Delay<V::Span>],
    sent: &[Track<V>],
    t: u32,
)
    requires room { length net.now.gates ≤ vec_capacity column.old }
    requires own_room { length net.now.gates ≤ vec_capacity owns.old }
    requires names { NamedFrom line.now 0 net.now.gates }
    requires cells { HaveCells net.now.gates cells.old.items }
    requires rows { HaveRows (length net.now.gates) line.now.horizon masks.now }
    requires tick { t < line.now.horizon }
    requires delays { CanReceive V.signal line.now delays.now }
    requires sent { AreSent (terminal_count line.now) line.now.horizon t sent.now }
    ensures room { length net.now.gates ≤ vec_capacity column.new }
    ensures own_room { length net.now.gates ≤ vec_capacity owns.new }
    ensures count { length column.new.items ≡ length net.now.gates }
    ensures own_count { length owns.new.items ≡ length net.now.gates }
    ensures cells { HaveCells net.now.gates cells.new.items }
    ensures stands { (lane : ℕ) (level : Levels) (w : PairWorld) (keys : PairSignals)
        (u v : GateSignals) → lane < V.signal.lanes →
        PutLevels V.signal level (formula_of net.now.gates) line.now.horizon masks.now →
        IsWorldAt V.signal.ends lane present.now delays.now w t →
        IsReady V.signal V.stands_for lane (level lane) w keys u v t net.now.gates sent.now
        cells.old.items →
        AllStand V.signal V.stands_for lane w u (suc t) net.now.gates cells.new.items }
    ensures answers { (lane : ℕ) (level : Levels) (w : PairWorld) (keys : PairSignals)
        (u v : GateSignals) → lane < V.signal.lanes →
        PutLevels V.signal level (formula_of net.now.gates) line.now.horizon masks.now →
        IsWorldAt V.signal.ends lane present.now delays.now w t →
        IsReady V.signal V.stands_for lane (level lane) w keys u v t net.now.gates sent.now
        cells.old.items →
        ValuesAgree V.signal.rails lane u t column.new.items
        × ValuesAgree V.signal.rails lane v t owns.new.items }
{
    column.clear();
    owns.clear();
    for i in 0..net.len() {
        let gate = net.gate(GateId(i));
        let own = answer::<V>(
            gate,
            &mut cells[i as usize],
            column.as_slice(),
            line,
            present,
            delays,
            sent,
            t,
        );
        let mask = mask_at::<V>(masks, net.len(), line.horizon, i, t);
        let value = put::<V>(own, &mask);
        owns.push_reserved(own);
        column.push_reserved(value);
    }
}
