//! Keys that change, and the gates that hear them.

ghost use Rattle.std.specs.Prelude.{◌≡◌, ℕ, ◌<◌, ◌≤◌, ◌+◌, ◌-◌, length, slice_get, Some, IsTrue};
ghost use Rattle.model_line.specs.Parameters.{terminal_count};
ghost use Rattle.net_gates.specs.{NetOf.IsNet, Readers.AreBelow};
ghost use Rattle.run_changes.specs.changes.Hears.{AreHeard, AreLastKeys, AreSoon, IsHeard, IsLastKey};
ghost use Rattle.run_step.specs.{Inputs.AreSoonest, Moments.CanHear};
ghost use Rattle.run_changes.specs.changes.Marks.{AreMarked};
ghost use Rattle.run_step.specs.declared.delays.Delay.{Delay};
ghost use Rattle.run_changes.specs.changes.Readers.{AreHastened};

use crate::changes::marks::{Marks, plan};
use net_gates::Net;
use run_signal::{Signal, Track};
use run_step::Moment;

/// Where a key at the tick is another one than before, those that hear it become due when it first
/// arrives, if not before.
pub fn hear<V: Signal>(
    net: &Net,
    column: &[V],
    moment: &Moment<'_, V, V::Span>,
    dues: &mut Vec<u32>,
    marks: &mut Marks,
)
    requires laws { IsNet net.now }
    requires terminals { length net.now.keys ≡ terminal_count moment.now.line.now }
    requires column { length column.now ≡ length net.now.gates }
    requires moment { CanHear V.signal moment.now }
    requires soonest { AreSoonest V.signal moment.now.delays.now }
    requires dues { length dues.old.items ≡ length net.now.gates }
    requires marks { AreMarked dues.old.items marks.old }
    requires next { marks.old.next ≡ moment.now.t + 1 }
    ensures dues { length dues.new.items ≡ length net.now.gates }
    ensures marks { AreMarked dues.new.items marks.new }
    ensures next { marks.new.next ≡ moment.now.t + 1 }
    ensures horizon { marks.new.horizon ≡ marks.old.horizon }
    ensures hastened { AreHastened dues.old.items dues.new.items }
    ensures heard { AreHeard V.signal net.now column.now
        (length moment.now.delays.now) moment.now.delays.now moment.now.sent.now moment.now.t
        dues.new.items }
{
    if keys_stay(net, column, moment.sent) {
        return;
    }
    for channel in 0..moment.delays.len() {
        hear_one(net, column, moment, channel, dues, marks);
    }
}

// Whether each terminal's key is the last one that was sent.
fn keys_stay<V: Signal>(net: &Net, column: &[V], sent: &[Track<V>]) -> bool
    requires laws { IsNet net.now }
    requires terminals { length net.now.keys ≡ length sent.now }
    requires column { length column.now ≡ length net.now.gates }
    ensures { IsTrue result → AreLastKeys V.signal net.now column.now sent.now }
{
    let gates = net.key_gates();
    for k in 0..gates.len() {
        let key = column[gates[k].0 as usize];
        if !is_last(&sent[k], key) {
            return false;
        }
    }
    true
}

// The same of one channel.
fn hear_one<V: Signal>(
    net: &Net,
    column: &[V],
    moment: &Moment<'_, V, V::Span>,
    channel: usize,
    dues: &mut Vec<u32>,
    marks: &mut Marks,
)
    requires laws { IsNet net.now }
    requires terminals { length net.now.keys ≡ terminal_count moment.now.line.now }
    requires column { length column.now ≡ length net.now.gates }
    requires moment { CanHear V.signal moment.now }
    requires soonest { AreSoonest V.signal moment.now.delays.now }
    requires inside { channel < length moment.now.delays.now }
    requires dues { length dues.old.items ≡ length net.now.gates }
    requires marks { AreMarked dues.old.items marks.old }
    requires next { marks.old.next ≡ moment.now.t + 1 }
    ensures count { length dues.new.items ≡ length dues.old.items }
    ensures marks { AreMarked dues.new.items marks.new }
    ensures next { marks.new.next ≡ moment.now.t + 1 }
    ensures horizon { marks.new.horizon ≡ marks.old.horizon }
    ensures hastened { AreHastened dues.old.items dues.new.items }
    ensures heard { (d : Delay V.Span) → slice_get moment.now.delays.now channel ≡ Some d →
        IsHeard V.signal net.now column.now channel d moment.now.sent.now
        moment.now.t dues.new.items }
{
    let delay = &moment.delays[channel];
    let key = column[net.key_gate(delay.from).0 as usize];
    if is_last(&moment.sent[delay.from as usize], key) {
        return;
    }
    let first = moment.t + delay.soonest;
    hasten(net.hearers(channel as u32), first, moment.t, dues, marks);
}

// Whether there is a key, and the value is the last one in each lane.
fn is_last<V: Signal>(key: &Track<V>, value: V) -> bool
    ensures { IsTrue result → IsLastKey V.signal key.now.keys value }
{
    let count = key.len();
    count > 0 && key.at(count - 1).same(value)
}

// Makes each of these gates due at the tick, if not before.
fn hasten(gates: &[u32], first: u32, t: u32, dues: &mut Vec<u32>, marks: &mut Marks)
    requires inside { AreBelow (length dues.old.items) gates.now }
    requires later { t < first }
    requires marks { AreMarked dues.old.items marks.old }
    requires next { marks.old.next ≡ t + 1 }
    ensures count { length dues.new.items ≡ length dues.old.items }
    ensures hastened { AreHastened dues.old.items dues.new.items }
    ensures soon { AreSoon first gates.now dues.new.items }
    ensures marks { AreMarked dues.new.items marks.new }
    ensures next { marks.new.next ≡ t + 1 }
    ensures horizon { marks.new.horizon ≡ marks.old.horizon }
{
    for gate in gates {
        hasten_one(*gate, first, t, dues, marks);
    }
}

fn hasten_one(gate: u32, first: u32, t: u32, dues: &mut Vec<u32>, marks: &mut Marks)
    requires inside { gate < length dues.old.items }
    requires later { t < first }
    requires marks { AreMarked dues.old.items marks.old }
    requires next { marks.old.next ≡ t + 1 }
    ensures count { length dues.new.items ≡ length dues.old.items }
    ensures hastened { AreHastened dues.old.items dues.new.items }
    ensures soon { (due : ℕ) → slice_get dues.new.items gate ≡ Some due → due ≤ first }
    ensures marks { AreMarked dues.new.items marks.new }
    ensures next { marks.new.next ≡ t + 1 }
    ensures horizon { marks.new.horizon ≡ marks.old.horizon }
{
    if dues[gate as usize] <= first {
        return;
    }
    dues[gate as usize] = first;
    plan(marks, gate, first);
}
