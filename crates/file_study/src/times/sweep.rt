//! The values of a sweep.

ghost use Rattle.std.specs.Prelude.{◌≡◌, ◌≤◌, ◌<◌};
ghost use Rattle.file_study.specs.times.Sweeps.{value_of, IsCount};
ghost use Rattle.file_study.specs.times.Times.{IsSwept};

use crate::times::fraction::Fraction;
use crate::times::time::Sweep;
use crate::times::unit::whole;

impl Sweep {
    /// How many values it has.
    pub fn count(self) -> u128
        requires { IsSwept self }
        ensures { IsCount self result }
    {
        if !self.first.is_at_most(self.last) {
            return 0;
        }
        let way = self.last.less(self.first);
        way.over * self.step.under / (way.under * self.step.over) + 1
    }

    /// A value, counted from 0.
    pub fn value(self, number: u32) -> Fraction
        requires { IsSwept self }
        ensures { result ≡ value_of self number }
    {
        self.first.plus(whole(number).times(self.step))
    }
}
