//! One tick of a net, of which only the gates behind a change are evaluated.

ghost use Rattle.std.specs.Prelude.{◌≡◌, ℕ, suc, ◌<◌, ◌≤◌, ◌+◌, ◌-◌, ◌⊎◌, length, slice_get, Some};
ghost use Rattle.net_gates.specs.{declared.gate.Gate.Gate};
ghost use Rattle.run_step.specs.Ticks.{ValuesAgree};
ghost use Rattle.run_step.specs.{Lanes.LanePairs, Lasts.Lasts};
ghost use Rattle.run_changes.specs.changes.Lags.{AllLag, AllWait, AreAtGate, CanTrace, IsGivenAt, IsTraced};

use crate::changes::gates::Gates;
use crate::changes::look::look;
use crate::changes::marks::{next_marked, settle, wake_due};
use crate::changes::readers::tell;
use crate::changes::shown_by::{ShownBy, spans_of};
use model_history::recorded_laws::recorded_ticks_suffice;
use net_gates::{GateId, Net};
use run_signal::{Carried, Timed, elements_stay_in_a_stretch};
use run_step::Moment;

/// Takes one tick: the column, which has the values of the tick before, gets those of this one.
pub fn trace<V: Timed + Carried>(
    net: &Net,
    shown: &ShownBy,
    moment: &Moment<'_, V, V::Span>,
    gates: &mut Gates<V::Cells, V, V::Span>,
)
    requires can { CanTrace V.signal net.now shown.now moment.now }
    requires gates { AreAtGate net.now moment.now.t 0 gates.old }
    requires horizon { gates.old.marks.horizon ≡ moment.now.line.now.horizon }
    requires reached { moment.now.t ≡ gates.old.marks.next }
    ensures gates { AreAtGate net.now moment.now.t (length net.now.gates) gates.new }
    ensures next { gates.new.marks.next ≡ moment.now.t + 1 }
    ensures horizon { gates.new.marks.horizon ≡ gates.old.marks.horizon }
    ensures answers { (lane : ℕ) (p : LanePairs) → lane < V.signal.lanes →
        IsGivenAt V.signal lane p net.now.gates shown.now moment.now →
        AllWait V.signal V.stands_for lane p moment.now.t net.now.gates gates.old →
        ValuesAgree V.signal.rails lane p.pairs moment.now.t gates.new.column.items }
    ensures lags { (lane : ℕ) (p : LanePairs) → lane < V.signal.lanes →
        IsGivenAt V.signal lane p net.now.gates shown.now moment.now →
        AllWait V.signal V.stands_for lane p moment.now.t net.now.gates gates.old →
        AllLag V.signal V.stands_for lane p (suc moment.now.t) net.now.gates gates.new }
    ensures lasts { (p : ℕ → LanePairs) → ((lane : ℕ) → lane < V.signal.lanes →
        IsGivenAt V.signal lane (p lane) net.now.gates shown.now moment.now
        × AllWait V.signal V.stands_for lane (p lane) moment.now.t net.now.gates gates.old) →
        (lane i : ℕ) (g : Gate) (due : ℕ) → lane < V.signal.lanes →
        slice_get net.now.gates i ≡ Some g → slice_get gates.new.dues.items i ≡ Some due →
        Lasts (p lane) (moment.now.t - 1) moment.now.t (due - moment.now.t) g }
{
    wake_due(&mut gates.marks, moment.t);
    trace_all::<V>(net, shown, moment, gates);
}

// Goes over all gates in the order of the net.
fn trace_all<V: Timed + Carried>(
    net: &Net,
    shown: &ShownBy,
    moment: &Moment<'_, V, V::Span>,
    gates: &mut Gates<V::Cells, V, V::Span>,
)
    requires can { CanTrace V.signal net.now shown.now moment.now }
    requires gates { AreAtGate net.now moment.now.t 0 gates.old }
    requires next { gates.old.marks.next ≡ moment.now.t + 1 }
    ensures gates { AreAtGate net.now moment.now.t (length net.now.gates) gates.new }
    ensures next { gates.new.marks.next ≡ moment.now.t + 1 }
    ensures horizon { gates.new.marks.horizon ≡ gates.old.marks.horizon }
    ensures takes { (lane : ℕ) (p : LanePairs) → lane < V.signal.lanes →
        IsGivenAt V.signal lane p net.now.gates shown.now moment.now →
        IsTraced V.signal V.stands_for lane p moment.now.t 0 net.now.gates gates.old →
        IsTraced V.signal V.stands_for lane p moment.now.t (length net.now.gates)
        net.now.gates gates.new }
    ensures lasts { (p : ℕ → LanePairs) → ((lane : ℕ) → lane < V.signal.lanes →
        IsGivenAt V.signal lane (p lane) net.now.gates shown.now moment.now
        × IsTraced V.signal V.stands_for lane (p lane) moment.now.t 0 net.now.gates
        gates.old) →
        (lane i : ℕ) (g : Gate) (due : ℕ) → lane < V.signal.lanes →
        slice_get net.now.gates i ≡ Some g → slice_get gates.new.dues.items i ≡ Some due →
        Lasts (p lane) (moment.now.t - 1) moment.now.t (due - moment.now.t) g }
{
    let mut i = 0;
    while i < net.len() {
        i = take_next::<V>(net, shown, moment, gates, i);
    }
}

// Leaves the gates without a mark as they are, from this one on, and evaluates the next one that has
// one. Answers behind which gate.
fn take_next<V: Timed + Carried>(
    net: &Net,
    shown: &ShownBy,
    moment: &Moment<'_, V, V::Span>,
    gates: &mut Gates<V::Cells, V, V::Span>,
    i: u32,
) -> u32
    requires inside { i < length net.now.gates }
    requires can { CanTrace V.signal net.now shown.now moment.now }
    requires gates { AreAtGate net.now moment.now.t i gates.old }
    requires next { gates.old.marks.next ≡ moment.now.t + 1 }
    ensures further { i < result }
    ensures inside { result ≤ length net.now.gates }
    ensures gates { AreAtGate net.now moment.now.t result gates.new }
    ensures next { gates.new.marks.next ≡ moment.now.t + 1 }
    ensures horizon { gates.new.marks.horizon ≡ gates.old.marks.horizon }
    ensures others { (k due : ℕ) → k < i → slice_get gates.new.dues.items k ≡ Some due →
        (due ≡ 0) ⊎ (slice_get gates.old.dues.items k ≡ Some due) }
    ensures takes { (lane : ℕ) (p : LanePairs) → lane < V.signal.lanes →
        IsGivenAt V.signal lane p net.now.gates shown.now moment.now →
        IsTraced V.signal V.stands_for lane p moment.now.t i net.now.gates gates.old →
        IsTraced V.signal V.stands_for lane p moment.now.t result net.now.gates gates.new }
    ensures lasts { (p : ℕ → LanePairs) → ((lane : ℕ) → lane < V.signal.lanes →
        IsGivenAt V.signal lane (p lane) net.now.gates shown.now moment.now
        × IsTraced V.signal V.stands_for lane (p lane) moment.now.t i net.now.gates
        gates.old) →
        (lane k : ℕ) (g : Gate) (due : ℕ) → lane < V.signal.lanes → i ≤ k → k < result →
        slice_get net.now.gates k ≡ Some g → slice_get gates.new.dues.items k ≡ Some due →
        Lasts (p lane) (moment.now.t - 1) moment.now.t (due - moment.now.t) g }
{
    elements_stay_in_a_stretch();
    recorded_ticks_suffice();
    let next = next_marked(&gates.marks.words, i, net.len());
    if next == net.len() {
        return next;
    }
    evaluate::<V>(net, shown, moment, gates, next);
    next + 1
}

// Evaluates a gate, and makes those due that read it, if it changes.
fn evaluate<V: Timed + Carried>(
    net: &Net,
    shown: &ShownBy,
    moment: &Moment<'_, V, V::Span>,
    gates: &mut Gates<V::Cells, V, V::Span>,
    i: u32,
)
    requires inside { i < length net.now.gates }
    requires can { CanTrace V.signal net.now shown.now moment.now }
    requires gates { AreAtGate net.now moment.now.t i gates.old }
    requires next { gates.old.marks.next ≡ moment.now.t + 1 }
    ensures gates { AreAtGate net.now moment.now.t (i + 1) gates.new }
    ensures next { gates.new.marks.next ≡ moment.now.t + 1 }
    ensures horizon { gates.new.marks.horizon ≡ gates.old.marks.horizon }
    ensures others { (k due : ℕ) → k < i → slice_get gates.new.dues.items k ≡ Some due →
        (due ≡ 0) ⊎ (slice_get gates.old.dues.items k ≡ Some due) }
    ensures takes { (lane : ℕ) (p : LanePairs) → lane < V.signal.lanes →
        IsGivenAt V.signal lane p net.now.gates shown.now moment.now →
        IsTraced V.signal V.stands_for lane p moment.now.t i net.now.gates gates.old →
        IsTraced V.signal V.stands_for lane p moment.now.t (i + 1) net.now.gates gates.new }
    ensures lasts { (p : ℕ → LanePairs) → ((lane : ℕ) → lane < V.signal.lanes →
        IsGivenAt V.signal lane (p lane) net.now.gates shown.now moment.now
        × IsTraced V.signal V.stands_for lane (p lane) moment.now.t i net.now.gates
        gates.old) →
        (lane : ℕ) (g : Gate) (due : ℕ) → lane < V.signal.lanes → slice_get net.now.gates i ≡ Some g →
        slice_get gates.new.dues.items i ≡ Some due →
        Lasts (p lane) (moment.now.t - 1) moment.now.t (due - moment.now.t) g }
{
    let k = i as usize;
    let gate = net.gate(GateId(i));
    let last = gates.column[k];
    let value = look::<V>(
        gate,
        &mut gates.cells[k],
        &mut gates.sinces[k],
        &mut gates.dues[k],
        &gates.column[..k],
        spans_of(gate, shown, i),
        moment,
    );
    let due = gates.dues[k];
    settle(&mut gates.marks, i, due);
    gates.column[k] = value;
    tell::<V>(net, i, value, last, &mut gates.dues, &mut gates.marks);
}
