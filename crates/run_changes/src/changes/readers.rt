//! Which gates are to be looked at where one changes.

ghost use Rattle.std.specs.Prelude.{◌≡◌, ◌<◌, length, slice_set};
ghost use Rattle.net_gates.specs.Readers.{AreBelow};
ghost use Rattle.run_changes.specs.changes.Marks.{AreMarked};
ghost use Rattle.run_changes.specs.changes.Readers.{AreAwake, AreLowered, AreReadersAwake, IsTold};

use crate::changes::marks::{Marks, mark};
use net_gates::{GateId, Net};
use run_signal::Signal;

// Makes each of these gates due at once.
fn wake(gates: &[u32], dues: &mut Vec<u32>, marks: &mut Marks)
    requires inside { AreBelow (length dues.old.items) gates.now }
    requires marks { AreMarked dues.old.items marks.old }
    ensures count { length dues.new.items ≡ length dues.old.items }
    ensures lowered { AreLowered dues.old.items dues.new.items }
    ensures awake { AreAwake gates.now dues.new.items }
    ensures marks { AreMarked dues.new.items marks.new }
    ensures next { marks.new.next ≡ marks.old.next }
    ensures horizon { marks.new.horizon ≡ marks.old.horizon }
{
    for gate in gates {
        wake_one(*gate, dues, marks);
    }
}

fn wake_one(gate: u32, dues: &mut Vec<u32>, marks: &mut Marks)
    requires inside { gate < length dues.old.items }
    requires marks { AreMarked dues.old.items marks.old }
    ensures due { dues.new.items ≡ slice_set dues.old.items gate 0 }
    ensures marks { AreMarked dues.new.items marks.new }
    ensures next { marks.new.next ≡ marks.old.next }
    ensures horizon { marks.new.horizon ≡ marks.old.horizon }
{
    dues[gate as usize] = 0;
    mark(&mut marks.words, gate);
}

/// Makes the readers of a gate due at once if its value is another than the last one.
pub fn tell<V: Signal>(
    net: &Net,
    gate: u32,
    value: V,
    last: V,
    dues: &mut Vec<u32>,
    marks: &mut Marks,
)
    requires inside { gate < length dues.old.items }
    requires dues { length dues.old.items ≡ length net.now.gates }
    requires marks { AreMarked dues.old.items marks.old }
    ensures count { length dues.new.items ≡ length dues.old.items }
    ensures lowered { AreLowered dues.old.items dues.new.items }
    ensures told { IsTold V.signal gate net.now.gates value last dues.new.items }
    ensures marks { AreMarked dues.new.items marks.new }
    ensures next { marks.new.next ≡ marks.old.next }
    ensures horizon { marks.new.horizon ≡ marks.old.horizon }
{
    if !value.same(last) {
        wake_readers(net, gate, dues, marks);
    }
}

// Makes the readers of a gate due at once.
fn wake_readers(net: &Net, gate: u32, dues: &mut Vec<u32>, marks: &mut Marks)
    requires inside { gate < length dues.old.items }
    requires dues { length dues.old.items ≡ length net.now.gates }
    requires marks { AreMarked dues.old.items marks.old }
    ensures count { length dues.new.items ≡ length dues.old.items }
    ensures lowered { AreLowered dues.old.items dues.new.items }
    ensures awake { AreReadersAwake gate net.now.gates dues.new.items }
    ensures marks { AreMarked dues.new.items marks.new }
    ensures next { marks.new.next ≡ marks.old.next }
    ensures horizon { marks.new.horizon ≡ marks.old.horizon }
{
    wake(net.readers(GateId(gate)), dues, marks);
}
