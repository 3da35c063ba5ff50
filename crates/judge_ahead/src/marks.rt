//! Ticks at which something may change.

ghost use Rattle.std.specs.Prelude.{◌<◌};

use crate::bits::{ALL, lowest, only};

// enough for 4,000 ticks
const WORDS: usize = 63;

/// A set of ticks: a bit for each.
#[derive(Clone, Copy)]
pub struct Marks {
    words: [u64; WORDS],
}

impl Marks {
    /// No tick.
    pub const NONE: Marks = Marks { words: [0; WORDS] };

    /// Adds a tick, if a run may have it.
    pub fn put(&mut self, t: u32) {
        let place = t as usize / 64;
        if place < WORDS {
            self.words[place] |= only(t % 64);
        }
    }

    /// The first of them after a tick; the horizon where there is none before it.
    pub fn after(&self, t: u32, horizon: u32) -> u32
        requires { t < horizon }
        ensures { t < result }
    {
        let from = t + 1;
        for place in from as usize / 64..WORDS {
            let mut ticks = self.words[place];
            if place == from as usize / 64 {
                ticks &= ALL << (from % 64);
            }
            if ticks != 0 {
                let tick = place
                    .saturating_mul(64)
                    .saturating_add(lowest(ticks) as usize);
                return (tick.min(horizon as usize) as u32).max(from);
            }
        }
        horizon
    }
}
