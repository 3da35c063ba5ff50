//! What each kind of gate answers at the next tick.

ghost use Rattle.std.specs.Prelude.{◌≡◌, ℕ, suc, ◌<◌, length, Some, slice_get};
ghost use Rattle.model_history.specs.Rails.{rails_delayed};
ghost use Rattle.model_line.specs.Parameters.{terminal_count, channel_count};
ghost use Rattle.model_logic.specs.PairMean.{PairWorld, PairSignals};
ghost use Rattle.net_gates.specs.{Gates.HasArguments, Named.GateNames};
ghost use Rattle.run_step.specs.GatePairs.{GateSignals, kind_pair};
ghost use Rattle.run_ticks.specs.cases.Given.{AreDelaysOf, CanReceive, IsWorldAt};
ghost use Rattle.run_step.specs.Ticks.{ValuesAgree, KeysSent, AreSent};
ghost use Rattle.run_step.specs.CellStands.{HasCell, CellStands};

use crate::cases::delays::Delay;
use model_history::laws::history_laws;
use model_history::recorded_laws::recorded_ticks_suffice;
use model_line::{Line, SeenSpan, lost_in, shown_in};
use net_gates::{Gate, GateId};
use run_signal::{Carried, SealCell, Signal, Timed, Track};
use run_step::{Cell, seal_answer, timer_answer};

// What is received of a channel at the next tick, lost or not.
fn raw_answer<V: Carried>(
    line: &Line,
    delays: &[Delay<V::Span>],
    sent: &[Track<V>],
    channel: u32,
    t: u32,
) -> V
    requires exists { channel < channel_count line.now }
    requires tick { t < line.now.horizon }
    requires delays { CanReceive V.signal line.now delays.now }
    requires sent { AreSent (terminal_count line.now) line.now.horizon t sent.now }
    ensures { (lane : ℕ) (w : PairWorld) (keys : PairSignals) → lane < V.signal.lanes →
        AreDelaysOf V.signal.ends lane delays.now w t → KeysSent V.signal.rails lane keys t sent.now →
        V.signal.rails result lane ≡ rails_delayed (keys (w.from channel)) (w.delay channel t) t }
{
    history_laws();
    let delay = &delays[channel as usize];
    sent[delay.from as usize].received(&delay.span)
}

// The value of an argument at this tick.
fn argument<V: Copy>(earlier: &[V], id: GateId) -> V
    requires { id.0 < length earlier.now }
    ensures { slice_get earlier.now id.0 ≡ Some result }
{
    earlier[id.0 as usize]
}

/// What a gate answers at the next tick, over the values of the earlier gates at that tick.
pub fn answer<V: Timed + Carried>(
    gate: &Gate,
    cell: &mut Cell<V::Cells, SealCell<V>, V::Span>,
    earlier: &[V],
    line: &Line,
    present: &[SeenSpan],
    delays: &[Delay<V::Span>],
    sent: &[Track<V>],
    t: u32,
) -> V
    requires names { GateNames line.now gate.now }
    requires arguments { HasArguments (length earlier.now) gate.now }
    requires cell { HasCell gate.now cell.old }
    requires tick { t < line.now.horizon }
    requires delays { CanReceive V.signal line.now delays.now }
    requires sent { AreSent (terminal_count line.now) line.now.horizon t sent.now }
    ensures shape { HasCell gate.now cell.new }
    ensures stands { (lane : ℕ) (w : PairWorld) (u : GateSignals) → lane < V.signal.lanes →
        ValuesAgree V.signal.rails lane u t earlier.now →
        CellStands V.signal V.stands_for lane w u t gate.now cell.old →
        CellStands V.signal V.stands_for lane w u (suc t) gate.now cell.new }
    ensures answers { (lane : ℕ) (w : PairWorld) (keys : PairSignals) (u : GateSignals) →
        lane < V.signal.lanes → IsWorldAt V.signal.ends lane present.now delays.now w t →
        KeysSent V.signal.rails lane keys t sent.now → ValuesAgree V.signal.rails lane u t earlier.now →
        CellStands V.signal V.stands_for lane w u t gate.now cell.old →
        V.signal.rails result lane ≡ kind_pair w keys u gate.now t }
{
    recorded_ticks_suffice();
    match *gate {
        Gate::Const(value) => V::known(value),
        Gate::Seen(place) => V::known(shown_in(present, place, t)),
        Gate::Loss(channel) => V::known(lost_in(present, channel, t)),
        Gate::Raw(channel) => raw_answer::<V>(line, delays, sent, channel, t),
        Gate::Not(x) => argument(earlier, x).not(),
        Gate::And(x, y) => argument(earlier, x).and(argument(earlier, y)),
        Gate::Or(x, y) => argument(earlier, x).or(argument(earlier, y)),
        Gate::Timer(x, _, _) => timer_answer::<V>(cell, argument(earlier, x)),
        Gate::Seal(x, y) => seal_answer::<V>(cell, argument(earlier, x), argument(earlier, y)),
    }
}
