//! A net while it is built.

ghost use Rattle.std.specs.Prelude.{◌≡◌, ◌<◌, [], length, IfOk};
ghost use Rattle.net_gates.specs.Gates.{HasArguments};
ghost use Rattle.net_compile.specs.Growing.{Makes};
ghost use Rattle.net_gates.specs.{NetOf.AreGatesOf, NetOf.IsNet};
ghost use Rattle.net_gates.specs.Readers.{HearBelow};

use indexmap::IndexSet;
use model_line::Memory;
use net_gates::{Gate, GateId, Net};
use std::alloc::Global;
use std::marker::Model;

/// The gates so far, in order.
#[derive(Drop)]
pub struct NetBuilder {
    gates: IndexSet<Gate>,
}

impl Model for NetBuilder {
    ghost use Rattle.std.specs.Prelude.{List};
    ghost use Rattle.net_gates.specs.{declared.gate.Gate.Gate, Gates.AreGates};

    ghost Value = { List Gate };

    ghost view = { λ b. b.gates.keys };

    ghost invariant = { λ b. AreGates b.gates.keys };
}

impl NetBuilder {
    /// No gates.
    pub fn new(alloc: Global) -> NetBuilder
        ensures { result ≡ [] }
    {
        NetBuilder {
            gates: IndexSet::new(alloc),
        }
    }

    /// The number of a gate. One that stands already keeps its number, and nothing changes;
    /// otherwise the gate goes last. After `Memory` nothing has changed.
    pub fn add(&mut self, gate: Gate) -> Result<GateId, Memory>
        requires arguments { HasArguments (length self.old) gate }
        requires room { length self.old < 512 }
        ensures { Makes self.old self.new gate result }
    {
        let (at, _) = self.gates.insert_full(gate)?;
        Ok(GateId(at as u32))
    }

    /// The net of these gates, with the gates of each terminal's key and trip, in the order of the
    /// terminals. They hear no channel from `channels` on.
    pub fn finish(
        self,
        alloc: Global,
        channels: u32,
        keys: Vec<GateId>,
        trips: Vec<GateId>,
    ) -> Result<Net, Memory>
        requires heard { HearBelow channels self }
        requires same { length trips.items ≡ length keys.items }
        requires keys { AreGatesOf keys.items (length self) }
        requires trips { AreGatesOf trips.items (length self) }
        ensures net { IfOk result (λ net.
            net ≡ record { gates = self; keys = keys.items; trips = trips.items }) }
        ensures laws { IfOk result (λ net. IsNet net) }
    {
        let mut gates = Vec::new(alloc);
        gates.extend_from_slice(self.gates.as_slice())?;
        Net::new(alloc, gates, channels, keys, trips)
    }
}
