//! What each kind of gate answers at the next tick, and for how long it stays.

ghost use Rattle.std.specs.Prelude.{◌≡◌, ℕ, suc, ◌<◌, ◌≤◌, length, Some, slice_get};
ghost use Rattle.model_history.specs.Rails.{rails_delayed};
ghost use Rattle.model_line.specs.Parameters.{channel_count};
ghost use Rattle.model_logic.specs.PairMean.{PairWorld, PairSignals};
ghost use Rattle.net_gates.specs.{Gates.HasArguments, Named.GateNames};
ghost use Rattle.run_step.specs.GatePairs.{GateSignals, kind_pair};
ghost use Rattle.run_step.specs.{Inputs.AreDelaysOf, Moments.CanHear, Shown.IsShownAt};
ghost use Rattle.run_step.specs.Ticks.{ValuesAgree, KeysSent};
ghost use Rattle.run_step.specs.{CellStands.HasCell, CellStands.CellStands, Quiet.TimerKeeps};

use crate::cell::{Cell, seal_answer, timer_answer, timer_stays};
use crate::minimum::lesser;
use crate::moment::Moment;
use model_history::laws::history_laws;
use model_history::recorded_laws::recorded_ticks_suffice;
use model_line::{SeenSpan, lost_in, shown_in};
use net_gates::{Gate, GateId};
use run_signal::{Carried, SealCell, Timed, elements_stay_in_a_stretch};

// What is received of a channel at the next tick, lost or not.
fn raw_answer<V: Carried>(moment: &Moment<'_, V, V::Span>, channel: u32) -> V
    requires exists { channel < channel_count moment.now.line.now }
    requires moment { CanHear V.signal moment.now }
    ensures { (lane : ℕ) (w : PairWorld) (keys : PairSignals) → lane < V.signal.lanes →
        AreDelaysOf V.signal.ends lane moment.now.delays.now w moment.now.t →
        KeysSent V.signal.rails lane keys moment.now.t moment.now.sent.now →
        V.signal.rails result lane
        ≡ rails_delayed (keys (w.from channel)) (w.delay channel moment.now.t) moment.now.t }
{
    history_laws();
    let delay = &moment.delays[channel as usize];
    let key = &moment.sent[delay.from as usize];
    key.received(&delay.span)
}

// The value of an argument at this tick.
fn argument<V: Copy>(earlier: &[V], id: GateId) -> V
    requires { id.0 < length earlier.now }
    ensures { slice_get earlier.now id.0 ≡ Some result }
{
    earlier[id.0 as usize]
}

/// For how many ticks, up to a limit, a gate that is a timer answers the same if its input stays as
/// it is, over the values of the earlier gates at the next tick.
pub fn gate_stays<V: Timed>(
    gate: &Gate,
    cell: &Cell<V::Cells, SealCell<V>, V::Span>,
    earlier: &[V],
    limit: u32,
) -> u32
    requires arguments { HasArguments (length earlier.now) gate.now }
    requires cell { HasCell gate.now cell.now }
    requires limit { 1 ≤ limit }
    ensures some { 1 ≤ result }
    ensures limited { result ≤ limit }
    ensures keeps { (w : ℕ → PairWorld) (u : ℕ → GateSignals) (t : ℕ) →
        ((lane : ℕ) → lane < V.signal.lanes →
        ValuesAgree V.signal.rails lane (u lane) t earlier.now) →
        ((lane : ℕ) → lane < V.signal.lanes →
        CellStands V.signal V.stands_for lane (w lane) (u lane) t gate.now cell.now) →
        (lane : ℕ) → lane < V.signal.lanes → TimerKeeps (w lane) (u lane) t result gate.now }
{
    elements_stay_in_a_stretch();
    match *gate {
        Gate::Timer(x, _, _) => lesser(limit, timer_stays::<V>(cell, argument(earlier, x))),
        _ => limit,
    }
}

/// What a gate answers at the next tick, over the values of the earlier gates at that tick. The
/// spans show and lose at it what the gate is of.
pub fn answer<V: Timed + Carried>(
    gate: &Gate,
    cell: &mut Cell<V::Cells, SealCell<V>, V::Span>,
    earlier: &[V],
    spans: &[SeenSpan],
    moment: &Moment<'_, V, V::Span>,
) -> V
    requires names { GateNames moment.now.line.now gate.now }
    requires arguments { HasArguments (length earlier.now) gate.now }
    requires cell { HasCell gate.now cell.old }
    requires moment { CanHear V.signal moment.now }
    ensures shape { HasCell gate.now cell.new }
    ensures stands { (lane : ℕ) (w : PairWorld) (u : GateSignals) → lane < V.signal.lanes →
        ValuesAgree V.signal.rails lane u moment.now.t earlier.now →
        CellStands V.signal V.stands_for lane w u moment.now.t gate.now cell.old →
        CellStands V.signal V.stands_for lane w u (suc moment.now.t) gate.now cell.new }
    ensures answers { (lane : ℕ) (w : PairWorld) (keys : PairSignals) (u : GateSignals) →
        lane < V.signal.lanes → IsShownAt spans.now w moment.now.t gate.now →
        AreDelaysOf V.signal.ends lane moment.now.delays.now w moment.now.t →
        KeysSent V.signal.rails lane keys moment.now.t moment.now.sent.now →
        ValuesAgree V.signal.rails lane u moment.now.t earlier.now →
        CellStands V.signal V.stands_for lane w u moment.now.t gate.now cell.old →
        V.signal.rails result lane ≡ kind_pair w keys u gate.now moment.now.t }
{
    recorded_ticks_suffice();
    match *gate {
        Gate::Const(value) => V::known(value),
        Gate::Seen(place) => V::known(shown_in(spans, place, moment.t)),
        Gate::Loss(channel) => V::known(lost_in(spans, channel, moment.t)),
        Gate::Raw(channel) => raw_answer::<V>(moment, channel),
        Gate::Not(x) => argument(earlier, x).not(),
        Gate::And(x, y) => argument(earlier, x).and(argument(earlier, y)),
        Gate::Or(x, y) => argument(earlier, x).or(argument(earlier, y)),
        Gate::Timer(x, _, _) => timer_answer::<V>(cell, argument(earlier, x)),
        Gate::Seal(x, y) => seal_answer::<V>(cell, argument(earlier, x), argument(earlier, y)),
    }
}

/// The same answer, with no call for the kinds of gates that are the most.
pub fn short_answer<V: Timed + Carried>(
    gate: &Gate,
    cell: &mut Cell<V::Cells, SealCell<V>, V::Span>,
    earlier: &[V],
    spans: &[SeenSpan],
    moment: &Moment<'_, V, V::Span>,
) -> V
    requires names { GateNames moment.now.line.now gate.now }
    requires arguments { HasArguments (length earlier.now) gate.now }
    requires cell { HasCell gate.now cell.old }
    requires moment { CanHear V.signal moment.now }
    ensures shape { HasCell gate.now cell.new }
    ensures stands { (lane : ℕ) (w : PairWorld) (u : GateSignals) → lane < V.signal.lanes →
        ValuesAgree V.signal.rails lane u moment.now.t earlier.now →
        CellStands V.signal V.stands_for lane w u moment.now.t gate.now cell.old →
        CellStands V.signal V.stands_for lane w u (suc moment.now.t) gate.now cell.new }
    ensures answers { (lane : ℕ) (w : PairWorld) (keys : PairSignals) (u : GateSignals) →
        lane < V.signal.lanes → IsShownAt spans.now w moment.now.t gate.now →
        AreDelaysOf V.signal.ends lane moment.now.delays.now w moment.now.t →
        KeysSent V.signal.rails lane keys moment.now.t moment.now.sent.now →
        ValuesAgree V.signal.rails lane u moment.now.t earlier.now →
        CellStands V.signal V.stands_for lane w u moment.now.t gate.now cell.old →
        V.signal.rails result lane ≡ kind_pair w keys u gate.now moment.now.t }
{
    match *gate {
        Gate::Not(x) => argument(earlier, x).not(),
        Gate::And(x, y) => argument(earlier, x).and(argument(earlier, y)),
        Gate::Or(x, y) => argument(earlier, x).or(argument(earlier, y)),
        _ => answer::<V>(gate, cell, earlier, spans, moment),
    }
}
