//! Times as values, in microseconds.

ghost use Rattle.std.specs.Prelude.{◌≡◌};
ghost use Rattle.file_study.specs.times.Times.{is_instant};

use crate::times::fraction::Fraction;

/// From the least to the greatest; both are equal in a time without a tolerance.
#[derive(Clone, Copy, PartialEq, Eq, Drop)]
pub struct Interval {
    pub least: Fraction,
    pub greatest: Fraction,
}

impl Interval {
    /// Whether both ends are one time.
    pub fn is_instant(self) -> bool
        ensures { result ≡ is_instant self }
    {
        self.least.over == self.greatest.over && self.least.under == self.greatest.under
    }
}

/// From the first, step by step, as long as the last is not passed.
#[derive(Clone, Copy, PartialEq, Eq, Drop)]
pub struct Sweep {
    pub first: Fraction,
    pub last: Fraction,
    pub step: Fraction,
}

/// What the text of a time says.
#[derive(Clone, Copy, PartialEq, Eq, Drop)]
pub enum Time {
    Interval(Interval),
    Sweep(Sweep),
}
