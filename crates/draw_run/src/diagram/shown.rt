//! The keys, trips and gates that a diagram shows.

ghost use Rattle.std.specs.Prelude.{◌≡◌, ◌<◌, ℕ, length, min};
ghost use Rattle.model_history.specs.Rails.{both};
ghost use Rattle.run_step.specs.{Played.is_on, Played.played, WavesOf.wave_pair};
ghost use Rattle.run_step.specs.WavesOf.{waves_history};
ghost use Rattle.run_signal.specs.{Levels.level_rails, Terns.tern_rails};
ghost use Rattle.draw_run.specs.diagram.Traces.{ShownPairs, known_history, pairs_shown};

use net_gates::GateId;
use run_signal::{Level, Tern};
use run_ticks::net::Waves;

/// Keys, trips and gates tick by tick: those of one play, or those of every choice of delays at once.
pub trait Shown {
    /// The pairs of keys, trips and gates.
    ghost pairs: { Self → ShownPairs };

    ghost terminals: { Self → ℕ };

    ghost ticks: { Self → ℕ };

    ghost gates: { Self → ℕ };

    /// What a terminal keys at a tick.
    fn key_at(&self, terminal: u32, t: u32) -> Tern
        requires terminal { terminal < terminals self.now }
        requires tick { t < ticks self.now }
        ensures { tern_rails result ≡ (pairs self.now).key terminal t };

    /// Whether a terminal trips at a tick.
    fn trip_at(&self, terminal: u32, t: u32) -> Tern
        requires terminal { terminal < terminals self.now }
        requires tick { t < ticks self.now }
        ensures { tern_rails result ≡ (pairs self.now).trip terminal t };

    /// The value of a gate at a tick.
    fn gate_at(&self, gate: u32, t: u32) -> Tern
        requires gate { gate < gates self.now }
        requires tick { t < ticks self.now }
        ensures { tern_rails result ≡ (pairs self.now).gate gate t };
}

impl Shown for Waves<Tern> {
    ghost pairs = { λ w. pairs_shown (waves_history (λ x _. tern_rails x) 0 w)
        (wave_pair (λ x _. tern_rails x) 0 w) };

    ghost terminals = { λ w. min (length w.keys) (length w.trips) };

    ghost ticks = { λ w. w.horizon };

    ghost gates = { λ w. w.width };

    fn key_at(&self, terminal: u32, t: u32) -> Tern {
        self.key(terminal, t)
    }

    fn trip_at(&self, terminal: u32, t: u32) -> Tern {
        self.trip(terminal, t)
    }

    fn gate_at(&self, gate: u32, t: u32) -> Tern {
        self.at(GateId(gate), t)
    }
}

impl Shown for Waves<Level> {
    ghost pairs = { λ w. pairs_shown (known_history (played w)) (λ gate t. both (is_on w gate t)) };

    ghost terminals = { λ w. min (length w.keys) (length w.trips) };

    ghost ticks = { λ w. w.horizon };

    ghost gates = { λ w. w.width };

    fn key_at(&self, terminal: u32, t: u32) -> Tern {
        known(self.key(terminal, t))
    }

    fn trip_at(&self, terminal: u32, t: u32) -> Tern {
        known(self.trip(terminal, t))
    }

    fn gate_at(&self, gate: u32, t: u32) -> Tern {
        known(self.at(GateId(gate), t))
    }
}

// A level as a value that is known.
fn known(level: Level) -> Tern
    ensures { tern_rails result ≡ level_rails level }
{
    match level {
        Level::Off => Tern::Zero,
        Level::On => Tern::One,
    }
}
