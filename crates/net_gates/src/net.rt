//! A finished net.

ghost use Rattle.std.specs.Prelude.{◌≡◌, ◌<◌, ◌≤◌, Some, IfOk, length, slice_get};
ghost use Rattle.net_gates.specs.Formulas.{formula_of, kind_over};
ghost use Rattle.net_gates.specs.NetOf.{IsNet, key_of, trip_of};
ghost use Rattle.net_gates.specs.Readers.{AreBelow, HasAllHearers, HasAllReaders, HearBelow};

use crate::gate::{Gate, GateId};
use crate::readers::{Readers, readers_of};
use model_line::Memory;
use std::alloc::Global;
use std::marker::Model;

/// Gates in order, and the gates of each terminal's key and trip in the order of the terminals.
#[derive(Drop)]
pub struct Net {
    gates: Vec<Gate>,
    keys: Vec<GateId>,
    trips: Vec<GateId>,
    readers: Readers,
}

impl Model for Net {
    ghost use Rattle.net_gates.specs.NetOf.{NetOf, IsNet};
    ghost use Rattle.net_gates.specs.Listing.{ReadersHold};

    ghost Value = { NetOf };

    ghost view = { λ n. record {
      gates = n.gates.items;
      keys = n.keys.items;
      trips = n.trips.items;
    } };

    ghost invariant = { λ n. IsNet (record {
      gates = n.gates.items;
      keys = n.keys.items;
      trips = n.trips.items;
    }) × ReadersHold n.gates.items n.readers };
}

impl Net {
    /// The net of these gates, with the gates of each terminal's key and trip, in the order of the
    /// terminals. They hear no channel from `channels` on.
    pub fn new(
        alloc: Global,
        gates: Vec<Gate>,
        channels: u32,
        keys: Vec<GateId>,
        trips: Vec<GateId>,
    ) -> Result<Net, Memory>
        requires laws { IsNet (record { gates = gates.items; keys = keys.items; trips = trips.items }) }
        requires heard { HearBelow channels gates.items }
        ensures { IfOk result (λ net.
            net ≡ record { gates = gates.items; keys = keys.items; trips = trips.items }) }
    {
        let readers = readers_of(alloc, &gates, channels)?;
        Ok(Net {
            gates,
            keys,
            trips,
            readers,
        })
    }

    /// How many gates there are.
    pub fn len(&self) -> u32
        ensures len { result ≡ length self.now.gates }
        ensures few { result ≤ 512 }
        ensures laws { IsNet self.now }
    {
        self.gates.len() as u32
    }

    /// The gate of this number. It stands for its kind over the trees of its arguments.
    pub fn gate(&self, id: GateId) -> &Gate
        requires { id.0 < length self.now.gates }
        ensures is { slice_get self.now.gates id.0 ≡ Some result.now }
        ensures stands { formula_of self.now.gates id.0 ≡ kind_over self.now.gates result.now }
    {
        &self.gates[id.0 as usize]
    }

    /// The gate of each terminal's key, in the order of the terminals.
    pub fn key_gates(&self) -> &[GateId]
        ensures { result.now ≡ self.now.keys }
    {
        &self.keys
    }

    /// The gate of each terminal's trip, in the order of the terminals.
    pub fn trip_gates(&self) -> &[GateId]
        ensures { result.now ≡ self.now.trips }
    {
        &self.trips
    }

    /// The gate of what a terminal keys.
    pub fn key_gate(&self, terminal: u32) -> GateId
        requires { terminal < length self.now.keys }
        ensures is { result.0 ≡ key_of self.now terminal }
        ensures exists { result.0 < length self.now.gates }
    {
        self.keys[terminal as usize]
    }

    /// The gate of a terminal's trip.
    pub fn trip_gate(&self, terminal: u32) -> GateId
        requires { terminal < length self.now.keys }
        ensures is { result.0 ≡ trip_of self.now terminal }
        ensures exists { result.0 < length self.now.gates }
    {
        self.trips[terminal as usize]
    }

    /// The gates that have this one as an argument: each of them, and maybe others.
    pub fn readers(&self, id: GateId) -> &[u32]
        requires { id.0 < length self.now.gates }
        ensures inside { AreBelow (length self.now.gates) result.now }
        ensures all { HasAllReaders id.0 self.now.gates result.now }
    {
        &self.readers.of_gates[id.0 as usize]
    }

    /// The gates of what arrives over this channel: each of them, and maybe others.
    pub fn hearers(&self, channel: u32) -> &[u32]
        ensures inside { AreBelow (length self.now.gates) result.now }
        ensures all { HasAllHearers channel self.now.gates result.now }
    {
        match self.readers.of_channels.get(channel as usize) {
            Some(list) => list,
            None => &[],
        }
    }
}
