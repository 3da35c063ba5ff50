//! A truth value of which it may be unknown what it is.
#![tactic(auto)]

ghost use Rattle.std.specs.Prelude.{◌≡◌, ◌↔◌, ◌⊎◌, IsTrue};
ghost use Rattle.model_history.specs.Rails.{Rails, RailsCover, IsSound};
ghost use Rattle.run_signal.specs.Terns.{tern_rails};

use crate::Signal;
use crate::lanes::Lanes64;
use crate::span::Within;

/// A truth value over a whole box of timings: off in all, on in all, or unknown. One lane, each
/// time a span of ticks.
#[derive(Clone, Copy, PartialEq, Eq)]
pub enum Tern {
    Zero,
    One,
    Unknown,
}

impl Tern {
    /// The value with these rails, where what must be may be.
    pub fn from_rails(must: bool, may: bool) -> Tern
        ensures { let rails : Rails = record { must = must; may = may } in
            IsSound rails → tern_rails result ≡ rails }
    {
        if must {
            Tern::One
        } else if may {
            Tern::Unknown
        } else {
            Tern::Zero
        }
    }
}

impl Signal for Tern {
    ghost use Rattle.std.specs.Prelude.{refl};
    ghost use Rattle.run_signal.specs.Terns.{tern_signal};
    ghost use Rattle.run_signal.specs.TernLaws.{tern_sound};

    type Span = Within;

    const LANES: u32 = 1;

    ghost LANES = { 1 };

    ghost signal = { tern_signal };

    fn known(value: bool) -> Self {
        if value { Tern::One } else { Tern::Zero }
    }

    fn not(self) -> Self {
        match self {
            Tern::Zero => Tern::One,
            Tern::One => Tern::Zero,
            Tern::Unknown => Tern::Unknown,
        }
    }

    fn and(self, other: Self) -> Self {
        match (self, other) {
            (Tern::Zero, _) | (_, Tern::Zero) => Tern::Zero,
            (Tern::One, Tern::One) => Tern::One,
            _ => Tern::Unknown,
        }
    }

    fn or(self, other: Self) -> Self {
        match (self, other) {
            (Tern::One, _) | (_, Tern::One) => Tern::One,
            (Tern::Zero, Tern::Zero) => Tern::Zero,
            _ => Tern::Unknown,
        }
    }

    fn same(self, other: Self) -> bool {
        self == other
    }

    fn must(self, _lane: u32) -> bool {
        match self {
            Tern::One => true,
            Tern::Zero | Tern::Unknown => false,
        }
    }

    fn may(self, _lane: u32) -> bool {
        match self {
            Tern::Zero => false,
            Tern::One | Tern::Unknown => true,
        }
    }

    fn sure(value: u32) -> Within {
        Within::new(value, value)
    }

    fn least(span: &Within, _lane: u32) -> u32 {
        span.least()
    }

    fn greatest(span: &Within, _lane: u32) -> u32 {
        span.greatest()
    }

    fn alike(_span: &Within, _lane: u32) -> Lanes64 {
        Lanes64::from_bits(1)
    }

    ghost lanes_are = { refl };

    ghost must_implies_may = { λ x lane inside. tern_sound x };
}

/// Whether the wide value allows all that the narrow one does.
pub fn covers(wide: Tern, narrow: Tern) -> bool
    ensures unknown_or_equal { IsTrue result ↔ ((wide ≡ Tern.Unknown) ⊎ (wide ≡ narrow)) }
    ensures covers { IsTrue result ↔ RailsCover (tern_rails wide) (tern_rails narrow) }
{
    match wide {
        Tern::Unknown => true,
        Tern::Zero | Tern::One => wide == narrow,
    }
}
