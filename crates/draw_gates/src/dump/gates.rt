//! The values of gates.

ghost use Rattle.std.specs.Prelude.{◌≡◌, ◌<◌};
ghost use Rattle.run_step.specs.Played.{is_on};

use net_gates::GateId;
use run_signal::{Level, Signal};
use run_ticks::net::Waves;

/// Whether a gate is on at a tick.
pub fn on_at(waves: &Waves<Level>, gate: u32, t: u32) -> bool
    requires gate { gate < waves.now.width }
    requires tick { t < waves.now.horizon }
    ensures { result ≡ is_on waves.now gate t }
{
    waves.at(GateId(gate), t).must(0)
}
