//! A timer on both rails.

ghost use Rattle.std.specs.Prelude.{◌<◌};

use crate::marks::Marks;
use crate::pair::Pair64;
use crate::timer::{Timer64, Times64};

/// The times of a timer on both rails, in each of 64 lanes.
#[derive(Clone, Copy)]
pub struct Rails64 {
    pub must: Times64,
    pub may: Times64,
}

/// A timer of what must be, and one of what may be.
#[derive(Drop)]
pub struct Timers64 {
    must: Timer64,
    may: Timer64,
}

impl Timers64 {
    /// Both before the first tick; their input was off.
    pub fn new(rails: &Rails64) -> Timers64 {
        Timers64 {
            must: Timer64::new(&rails.must),
            may: Timer64::new(&rails.may),
        }
    }

    /// Whether some lane is due at a tick, on either rail.
    pub fn is_due(&self, t: u32) -> bool {
        self.must.due() <= t || self.may.due() <= t
    }

    /// What they are at a tick in these lanes, with this input, after all ticks before that were
    /// marked. The ticks at which they are due are marked.
    pub fn feed(&mut self, t: u32, input: Pair64, lanes: u64, marks: &mut Marks) -> Pair64
        requires { t < 4000 }
    {
        let must = self.must.feed(t, input.must, lanes);
        let may = self.may.feed(t, input.may, lanes);
        marks.put(self.must.due());
        marks.put(self.may.due());
        Pair64 { must, may }
    }
}
