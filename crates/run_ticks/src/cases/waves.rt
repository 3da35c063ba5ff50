//! The values of a run.

ghost use Rattle.std.specs.Prelude.{◌≡◌, ◌<◌, ◌*◌, ◌+◌, Some, slice_get};
ghost use Rattle.run_ticks.specs.cases.UnderWaves.{UnderWavesOf, AreUnderWaves, under_waves, value_at};

use net_gates::GateId;
use run_signal::Signal;
use std::marker::Model;

/// For each gate at each tick its own value, and the value with what was put. Contracts see both
/// lists, tick after tick.
#[derive(Drop)]
pub struct UnderWaves<V: Signal> {
    width: u32,
    horizon: u32,
    values: Vec<V>,
    owns: Vec<V>,
}

impl<V: Signal> Model for UnderWaves<V> {
    ghost Value = { UnderWavesOf V };

    ghost view = { λ w. under_waves w.width w.horizon w.values.items w.owns.items };

    ghost invariant = { λ w. AreUnderWaves {V = V}
        (under_waves w.width w.horizon w.values.items w.owns.items) };
}

impl<V: Signal> UnderWaves<V> {
    pub(crate) fn new(width: u32, horizon: u32, values: Vec<V>, owns: Vec<V>) -> Self
        requires { AreUnderWaves {V = V} (under_waves width horizon values.items owns.items) }
        ensures { result ≡ under_waves width horizon values.items owns.items }
    {
        UnderWaves {
            width,
            horizon,
            values,
            owns,
        }
    }

    /// The value of a gate at a tick, with what was put.
    pub fn at(&self, gate: GateId, t: u32) -> V
        requires gate { gate.0 < self.now.width }
        requires tick { t < self.now.horizon }
        ensures { slice_get self.now.values (value_at self.now.width gate.0 t) ≡ Some result }
    {
        self.values[t as usize * self.width as usize + gate.0 as usize]
    }

    /// The own value of a gate at a tick.
    pub fn own(&self, gate: GateId, t: u32) -> V
        requires gate { gate.0 < self.now.width }
        requires tick { t < self.now.horizon }
        ensures { slice_get self.now.owns (value_at self.now.width gate.0 t) ≡ Some result }
    {
        self.owns[t as usize * self.width as usize + gate.0 as usize]
    }
}
