//! One gate at a tick: it is evaluated, or left as it is.

ghost use Rattle.std.specs.Prelude.{◌≡◌, ℕ, suc, ◌<◌, ◌≤◌, ◌-◌, length, IsTrue, IsFalse};
ghost use Rattle.net_gates.specs.{Gates.HasArguments, Named.GateNames};
ghost use Rattle.run_step.specs.GatePairs.{GateSignals, kind_pair};
ghost use Rattle.run_step.specs.{Inputs.AreDelaysFrom, Inputs.AreSet, Moments.CanHear};
ghost use Rattle.run_step.specs.{Shown.IsShown, Ticks.ValuesAgree, Ticks.KeysSent};
ghost use Rattle.run_step.specs.CellStands.{HasCell};
ghost use Rattle.run_changes.specs.{changes.Lags.Lags, changes.Lags.IsInputAt, changes.Lags.IsNoTimer};
ghost use Rattle.run_step.specs.Lasts.{Lasts};
ghost use Rattle.run_step.specs.Lanes.{LanePairs};

use crate::changes::arrivals::arrives_until;
use crate::changes::since::{Since, catch_up};
use model_line::SeenSpan;
use net_gates::Gate;
use run_signal::{Carried, SealCell, Signal, Timed};
use run_step::{Cell, Moment, all_stay, answer, gate_stays, short_answer};

// Whether a gate is no timer.
fn is_no_timer(gate: &Gate) -> bool
    ensures none { IsTrue result → IsNoTimer gate.now }
    ensures one { IsFalse result → IsNoTimer gate.now → ⊥ }
{
    match *gate {
        Gate::Const(_) => true,
        Gate::Seen(_) => true,
        Gate::Loss(_) => true,
        Gate::Raw(_) => true,
        Gate::Not(_) => true,
        Gate::And(_, _) => true,
        Gate::Or(_, _) => true,
        Gate::Timer(_, _, _) => false,
        Gate::Seal(_, _) => true,
    }
}

// A timer's input.
fn input_of<V: Signal>(gate: &Gate, earlier: &[V]) -> V
    requires { HasArguments (length earlier.now) gate.now }
    ensures { (lane : ℕ) (u : GateSignals) (t : ℕ) → lane < V.signal.lanes →
        ValuesAgree V.signal.rails lane u t earlier.now →
        IsInputAt V.signal.rails lane u t gate.now result }
{
    match *gate {
        Gate::Timer(x, _, _) => earlier[x.0 as usize],
        _ => V::known(false),
    }
}

// Until when a gate that is no timer stays as it is, while its arguments do and so does the key that
// it hears.
fn rests_until<V: Carried>(gate: &Gate, spans: &[SeenSpan], moment: &Moment<'_, V, V::Span>) -> u32
    requires names { GateNames moment.now.line.now gate.now }
    requires moment { CanHear V.signal moment.now }
    requires set { AreSet moment.now.t moment.now.delays.now }
    ensures later { moment.now.t < result }
    ensures limited { result ≤ 8000 }
    ensures lasts { (lane : ℕ) (p : LanePairs) → lane < V.signal.lanes → IsNoTimer gate.now →
        IsShown spans.now p.world gate.now →
        AreDelaysFrom V.signal.ends lane moment.now.delays.now p.world moment.now.t →
        KeysSent V.signal.rails lane p.keys moment.now.t moment.now.sent.now →
        Lasts p (moment.now.t - 1) moment.now.t (result - moment.now.t) gate.now }
{
    match *gate {
        Gate::Seen(_) => moment.t + all_stay(spans, moment.t),
        Gate::Loss(_) => moment.t + all_stay(spans, moment.t),
        Gate::Raw(channel) => arrives_until::<V>(moment, channel),
        Gate::Const(_) => 4000,
        Gate::Not(_) => 4000,
        Gate::And(_, _) => 4000,
        Gate::Or(_, _) => 4000,
        Gate::Timer(_, _, _) => 4000,
        Gate::Seal(_, _) => 4000,
    }
}

/// Evaluates a gate, whose cell may lag behind the tick, and sets the tick at which it is due.
pub fn look<V: Timed + Carried>(
    gate: &Gate,
    cell: &mut Cell<V::Cells, SealCell<V>, V::Span>,
    since: &mut Since<V>,
    due: &mut u32,
    earlier: &[V],
    spans: &[SeenSpan],
    moment: &Moment<'_, V, V::Span>,
) -> V
    requires names { GateNames moment.now.line.now gate.now }
    requires arguments { HasArguments (length earlier.now) gate.now }
    requires cell { HasCell gate.now cell.old }
    requires moment { CanHear V.signal moment.now }
    requires set { AreSet moment.now.t moment.now.delays.now }
    ensures shape { HasCell gate.now cell.new }
    ensures later { moment.now.t < due.new }
    ensures stands { (lane : ℕ) (p : LanePairs) → lane < V.signal.lanes →
        ValuesAgree V.signal.rails lane p.pairs moment.now.t earlier.now →
        Lags V.signal V.stands_for lane p.world p.pairs moment.now.t gate.now cell.old
        since.old →
        Lags V.signal V.stands_for lane p.world p.pairs (suc moment.now.t) gate.now cell.new
        since.new }
    ensures answers { (lane : ℕ) (p : LanePairs) → lane < V.signal.lanes →
        IsShown spans.now p.world gate.now →
        AreDelaysFrom V.signal.ends lane moment.now.delays.now p.world moment.now.t →
        KeysSent V.signal.rails lane p.keys moment.now.t moment.now.sent.now →
        ValuesAgree V.signal.rails lane p.pairs moment.now.t earlier.now →
        Lags V.signal V.stands_for lane p.world p.pairs moment.now.t gate.now cell.old
        since.old →
        V.signal.rails result lane ≡ kind_pair p.world p.keys p.pairs gate.now moment.now.t }
    ensures lasts { (p : ℕ → LanePairs) → ((lane : ℕ) → lane < V.signal.lanes →
        IsShown spans.now (p lane).world gate.now
        × AreDelaysFrom V.signal.ends lane moment.now.delays.now (p lane).world moment.now.t
        × KeysSent V.signal.rails lane (p lane).keys moment.now.t moment.now.sent.now
        × ValuesAgree V.signal.rails lane (p lane).pairs moment.now.t earlier.now
        × Lags V.signal V.stands_for lane (p lane).world (p lane).pairs moment.now.t gate.now
        cell.old since.old) →
        (lane : ℕ) → lane < V.signal.lanes →
        Lasts (p lane) (moment.now.t - 1) moment.now.t (due.new - moment.now.t) gate.now }
{
    if is_no_timer(gate) {
        let until = rests_until::<V>(gate, spans, moment);
        let value = short_answer::<V>(gate, cell, earlier, spans, moment);
        *due = until;
        return value;
    }
    let t = moment.t;
    catch_up::<V>(gate, cell, *since, t);
    let stays = gate_stays::<V>(gate, cell, earlier, 4000 - t);
    *due = t + stays;
    *since = Since {
        fed: t + 1,
        input: input_of(gate, earlier),
    };
    answer::<V>(gate, cell, earlier, spans, moment)
}
