//! The values of a run.

ghost use Rattle.std.specs.Prelude.{◌≡◌, ◌<◌, Some, length};
ghost use Rattle.net_gates.specs.NetOf.{id_at};
ghost use Rattle.run_step.specs.WavesOf.{WavesOf, AreWaves, waves_of, wave_value};

use net_gates::GateId;
use run_signal::Signal;
use std::marker::Model;

/// A value for each gate at each tick, and the gates of each terminal's key and trip.
#[derive(Drop)]
pub struct Waves<V: Signal> {
    width: u32,
    horizon: u32,
    values: Vec<V>,
    keys: Vec<GateId>,
    trips: Vec<GateId>,
}

impl<V: Signal> Model for Waves<V> {
    ghost Value = { WavesOf V };

    ghost view = { λ w. waves_of w.width w.horizon w.values.items w.keys.items w.trips.items };

    ghost invariant = { λ w. AreWaves {V = V}
        (waves_of w.width w.horizon w.values.items w.keys.items w.trips.items) };
}

impl<V: Signal> Waves<V> {
    pub(crate) fn new(
        width: u32,
        horizon: u32,
        values: Vec<V>,
        keys: Vec<GateId>,
        trips: Vec<GateId>,
    ) -> Self
        requires { AreWaves {V = V}
            (waves_of width horizon values.items keys.items trips.items) }
        ensures { result ≡ waves_of width horizon values.items keys.items trips.items }
    {
        Waves {
            width,
            horizon,
            values,
            keys,
            trips,
        }
    }

    /// The value of a gate at a tick.
    pub fn at(&self, gate: GateId, t: u32) -> V
        requires gate { gate.0 < self.now.width }
        requires tick { t < self.now.horizon }
        ensures { wave_value self.now gate.0 t ≡ Some result }
    {
        self.values[t as usize * self.width as usize + gate.0 as usize]
    }

    pub(crate) fn key_gate(&self, terminal: u32) -> GateId
        requires { terminal < length self.now.keys }
        ensures is { result.0 ≡ id_at self.now.keys terminal }
        ensures exists { result.0 < self.now.width }
    {
        self.keys[terminal as usize]
    }

    pub(crate) fn trip_gate(&self, terminal: u32) -> GateId
        requires { terminal < length self.now.trips }
        ensures is { result.0 ≡ id_at self.now.trips terminal }
        ensures exists { result.0 < self.now.width }
    {
        self.trips[terminal as usize]
    }

    /// What a terminal keys at a tick.
    pub fn key(&self, terminal: u32, t: u32) -> V
        requires terminal { terminal < length self.now.keys }
        requires tick { t < self.now.horizon }
        ensures { wave_value self.now (id_at self.now.keys terminal) t ≡ Some result }
    {
        self.at(self.key_gate(terminal), t)
    }

    /// Whether a terminal trips at a tick.
    pub fn trip(&self, terminal: u32, t: u32) -> V
        requires terminal { terminal < length self.now.trips }
        requires tick { t < self.now.horizon }
        ensures { wave_value self.now (id_at self.now.trips terminal) t ≡ Some result }
    {
        self.at(self.trip_gate(terminal), t)
    }
}
