//! A truth value that is known.
#![tactic(auto)]

use crate::Signal;
use crate::lanes::Lanes64;
use crate::span::Tick;

/// A truth value that is known: one lane, both rails the same, each time one number of ticks.
#[derive(Clone, Copy, PartialEq, Eq)]
pub enum Level {
    Off,
    On,
}

impl Signal for Level {
    ghost use Rattle.std.specs.Prelude.{refl};
    ghost use Rattle.run_signal.specs.Levels.{level_signal};
    ghost use Rattle.run_signal.specs.LevelLaws.{level_sound};

    type Span = Tick;

    const LANES: u32 = 1;

    ghost LANES = { 1 };

    ghost signal = { level_signal };

    fn known(value: bool) -> Self {
        if value { Level::On } else { Level::Off }
    }

    fn not(self) -> Self {
        match self {
            Level::Off => Level::On,
            Level::On => Level::Off,
        }
    }

    fn and(self, other: Self) -> Self {
        match self {
            Level::Off => Level::Off,
            Level::On => other,
        }
    }

    fn or(self, other: Self) -> Self {
        match self {
            Level::Off => other,
            Level::On => Level::On,
        }
    }

    fn same(self, other: Self) -> bool {
        self == other
    }

    fn must(self, _lane: u32) -> bool {
        match self {
            Level::Off => false,
            Level::On => true,
        }
    }

    fn may(self, lane: u32) -> bool {
        self.must(lane)
    }

    fn sure(value: u32) -> Tick {
        Tick::new(value)
    }

    fn least(span: &Tick, _lane: u32) -> u32 {
        span.value()
    }

    fn greatest(span: &Tick, _lane: u32) -> u32 {
        span.value()
    }

    fn alike(_span: &Tick, _lane: u32) -> Lanes64 {
        Lanes64::from_bits(1)
    }

    ghost lanes_are = { refl };

    ghost must_implies_may = { λ x lane inside. level_sound x };
}
