//! Times in ticks.

ghost use Rattle.std.specs.Prelude.{◌≡◌, ◌≤◌, ◌<◌, ◌*◌, ◌↔◌, ℕ, IsTrue};
ghost use Rattle.file_study.specs.times.Rounding.{IsRoundedDown, IsRoundedUp, IsWhole, LiesBetween};
ghost use Rattle.file_study.specs.times.Times.{IsEnd};

use crate::times::fraction::Fraction;
use crate::times::time::Interval;

impl Fraction {
    /// The greatest number of ticks, of so many microseconds each, that is at most the time.
    pub fn ticks_down(self, tick_us: u32) -> u128
        requires number { 0 < self.under }
        requires tick { 0 < tick_us }
        ensures { IsRoundedDown tick_us self result }
    {
        self.over / self.under / u128::from(tick_us)
    }

    /// The least number of ticks, of so many microseconds each, that is at least the time.
    pub fn ticks_up(self, tick_us: u32) -> u128
        requires number { 0 < self.under }
        requires tick { 0 < tick_us }
        ensures { IsRoundedUp tick_us self result }
    {
        let microseconds = divided_up(self.over, self.under);
        divided_up(microseconds, u128::from(tick_us))
    }

    /// Whether the time is a whole number of ticks, so that rounding does not move it.
    pub fn is_whole(self, tick_us: u32) -> bool
        requires number { 0 < self.under }
        requires tick { 0 < tick_us }
        ensures { IsTrue result ↔ IsWhole tick_us self }
    {
        self.ticks_down(tick_us) == self.ticks_up(tick_us)
    }
}

/// An interval in ticks.
#[derive(Clone, Copy, Drop)]
pub struct TickInterval {
    pub least: u128,
    pub greatest: u128,
}

impl Interval {
    /// The ends in ticks of so many microseconds, rounded outward.
    pub fn in_ticks(self, tick_us: u32) -> TickInterval
        requires least { IsEnd self.least }
        requires greatest { IsEnd self.greatest }
        requires tick { 0 < tick_us }
        ensures least { IsRoundedDown tick_us self.least result.least }
        ensures greatest { IsRoundedUp tick_us self.greatest result.greatest }
        ensures covers { LiesBetween tick_us self result.least result.greatest }
    {
        TickInterval {
            least: self.least.ticks_down(tick_us),
            greatest: self.greatest.ticks_up(tick_us),
        }
    }
}

// The least number that is not below the quotient.
fn divided_up(number: u128, by: u128) -> u128
    requires { 0 < by }
    ensures enough { number ≤ result * by }
    ensures least { (m : ℕ) → number ≤ m * by → result ≤ m }
{
    let quotient = number / by;
    if number % by == 0 {
        quotient
    } else {
        quotient + 1
    }
}
