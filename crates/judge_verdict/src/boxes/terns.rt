//! Sixty-four truth values that may be unknown.

ghost use Rattle.std.specs.Prelude.{◌≡◌, ◌<◌, ℕ};
ghost use Rattle.run_signal.specs.Bits.{bit_on};
ghost use Rattle.judge_verdict.specs.boxes.Terns.{terns_rails};

use crate::boxes::spans::Spans64;
use run_signal::{Lanes64, Signal, Ticks64};

/// A truth value in each of 64 lanes, over the box of timings of the lane: it must be on where
/// `must` is, and may be on where one of the two is.
#[derive(Clone, Copy)]
pub struct Terns64 {
    pub must: Lanes64,
    pub may: Lanes64,
}

impl Terns64 {
    /// The lanes in which it may be on.
    pub fn possible(self) -> Lanes64
        ensures { (lane : ℕ) → lane < 64 → bit_on result lane ≡ (terns_rails self lane).may }
    {
        self.must.or(self.may)
    }
}

impl Signal for Terns64 {
    ghost use Rattle.std.specs.Prelude.{refl};
    ghost use Rattle.judge_verdict.specs.boxes.Terns.{terns_signal};
    ghost use Rattle.judge_verdict.specs.{boxes.TernLaws.terns_sound};

    type Span = Spans64;

    const LANES: u32 = 64;

    ghost LANES = { 64 };

    ghost signal = { terns_signal };

    fn known(value: bool) -> Self {
        Terns64 {
            must: Lanes64::known(value),
            may: Lanes64::known(value),
        }
    }

    fn not(self) -> Self {
        let off = self.must.not();
        Terns64 {
            must: self.possible().not(),
            may: off,
        }
    }

    fn and(self, other: Self) -> Self {
        let must = self.must.and(other.must);
        let may = self.possible().and(other.possible());
        Terns64 { must, may }
    }

    fn or(self, other: Self) -> Self {
        Terns64 {
            must: self.must.or(other.must),
            may: self.may.or(other.may),
        }
    }

    fn same(self, other: Self) -> bool {
        let must = self.must.same(other.must);
        let may = self.possible().same(other.possible());
        must && may
    }

    fn must(self, lane: u32) -> bool {
        self.must.must(lane)
    }

    fn may(self, lane: u32) -> bool {
        self.possible().must(lane)
    }

    fn sure(value: u32) -> Spans64 {
        Spans64::sure(value)
    }

    fn least(span: &Spans64, lane: u32) -> u32 {
        span.least_in(lane)
    }

    fn greatest(span: &Spans64, lane: u32) -> u32 {
        span.greatest_in(lane)
    }

    fn alike(span: &Spans64, lane: u32) -> Lanes64 {
        span.alike(lane)
    }

    ghost lanes_are = { refl };

    ghost must_implies_may = { λ x lane inside. terns_sound x lane };
}
