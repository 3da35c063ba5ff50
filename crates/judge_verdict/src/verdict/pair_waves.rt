//! The pairs of keys and trips.

ghost use Rattle.std.specs.Prelude.{◌≡◌, ◌<◌, IfSome, length};
ghost use Rattle.run_signal.specs.Terns.{tern_rails};
ghost use Rattle.run_waves.specs.{waves.FirstTick.first_on, waves.Waves.AreWaves, waves.Waves.IsWaveOf};
ghost use Rattle.judge_verdict.specs.verdict.PairWavesOf.{told_by, pair_history};

use run_signal::Tern;
use run_waves::waves::Runs;
use std::marker::Model;

/// What each terminal keys, and whether it trips, at each tick of a run: off or on whatever the
/// delays, or unknown. Contracts see the interval history, tick by tick.
#[derive(Drop)]
pub struct PairWaves {
    horizon: u32,
    keys: Vec<Runs>,
    trips: Vec<Runs>,
}

impl Model for PairWaves {
    ghost use Rattle.std.specs.Prelude.{length};
    ghost use Rattle.run_waves.specs.waves.Waves.{AreWaves};
    ghost use Rattle.judge_verdict.specs.verdict.PairWavesOf.{PairWavesOf, told_by};

    ghost Value = { PairWavesOf };

    ghost view = { λ w. told_by w.horizon w.keys.items w.trips.items };

    ghost invariant = { λ w. AreWaves (length w.keys.items) w.horizon w.keys.items
        × AreWaves (length w.keys.items) w.horizon w.trips.items };
}

impl PairWaves {
    pub(crate) fn new(horizon: u32, keys: Vec<Runs>, trips: Vec<Runs>) -> PairWaves
        requires keys { AreWaves (length keys.items) horizon keys.items }
        requires trips { AreWaves (length keys.items) horizon trips.items }
        ensures { result ≡ told_by horizon keys.items trips.items }
    {
        PairWaves {
            horizon,
            keys,
            trips,
        }
    }

    /// How many ticks there are.
    pub fn horizon(&self) -> u32
        ensures { result ≡ self.now.horizon }
    {
        self.horizon
    }

    /// What a terminal keys at a tick.
    pub fn key(&self, terminal: u32, t: u32) -> Tern
        requires terminal { terminal < self.now.terminals }
        requires tick { t < self.now.horizon }
        ensures { tern_rails result ≡ (pair_history self.now).key terminal t }
    {
        self.key_runs(terminal).at(t)
    }

    /// Whether a terminal trips at a tick.
    pub fn trip(&self, terminal: u32, t: u32) -> Tern
        requires terminal { terminal < self.now.terminals }
        requires tick { t < self.now.horizon }
        ensures { tern_rails result ≡ (pair_history self.now).trip terminal t }
    {
        self.trip_runs(terminal).at(t)
    }

    /// What a terminal keys.
    pub fn key_runs(&self, terminal: u32) -> &Runs
        requires { terminal < self.now.terminals }
        ensures { IsWaveOf result.now self.now.horizon ((pair_history self.now).key terminal) }
    {
        &self.keys[terminal as usize]
    }

    /// Whether a terminal trips.
    pub fn trip_runs(&self, terminal: u32) -> &Runs
        requires { terminal < self.now.terminals }
        ensures { IsWaveOf result.now self.now.horizon ((pair_history self.now).trip terminal) }
    {
        &self.trips[terminal as usize]
    }

    /// The first tick at which a terminal must trip.
    pub fn first_must(&self, terminal: u32) -> Option<u32>
        requires { terminal < self.now.terminals }
        ensures first { result
            ≡ first_on (λ t. ((pair_history self.now).trip terminal t).must) self.now.horizon }
        ensures within { IfSome result (λ t. t < self.now.horizon) }
    {
        run_waves::waves::first_must(self.trip_runs(terminal))
    }

    /// The first tick at which a terminal may trip.
    pub fn first_may(&self, terminal: u32) -> Option<u32>
        requires { terminal < self.now.terminals }
        ensures first { result
            ≡ first_on (λ t. ((pair_history self.now).trip terminal t).may) self.now.horizon }
        ensures within { IfSome result (λ t. t < self.now.horizon) }
    {
        run_waves::waves::first_may(self.trip_runs(terminal))
    }
}
