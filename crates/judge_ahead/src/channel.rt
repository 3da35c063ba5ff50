//! What arrives over a channel in 64 lanes.

ghost use Rattle.std.specs.Prelude.{◌<◌};

use crate::bits::{lowest, only, rest};
use crate::marks::Marks;
use crate::pair::Pair64;
use crate::rails::{Rails64, Timers64};
use model_line::Memory;
use std::alloc::Global;

/// A delay in each of 64 lanes: the key is delayed by `base`, and what then comes is timed.
///
/// Where a delay moves from `least` to `greatest`, what must arrive is the key delayed by `least`
/// and on for `greatest - least` ticks more before it shows; what may arrive stays on for as many.
#[derive(Clone, Copy)]
pub struct Window64 {
    pub base: [u16; 64],
    pub rails: Rails64,
}

/// A channel, with what goes over it on both rails.
#[derive(Drop)]
pub struct Channel64 {
    base: [u16; 64],
    sent: Pair64,
    delayed: Pair64,
    /// The lanes in which the delayed key changes, at each of the next ticks, in a ring.
    changes: Vec<Pair64>,
    timers: Timers64,
    arrived: Pair64,
}

impl Channel64 {
    /// The channel before the first tick; the key was off.
    pub fn new(alloc: Global, window: &Window64) -> Result<Channel64, Memory> {
        let ticks = greatest(window.base) as usize + 1;
        let changes = vec![in alloc; Pair64::OFF; ticks]?;
        Ok(Channel64 {
            base: window.base,
            sent: Pair64::OFF,
            delayed: Pair64::OFF,
            changes,
            timers: Timers64::new(&window.rails),
            arrived: Pair64::OFF,
        })
    }

    /// What arrived last.
    pub fn arrived(&self) -> Pair64 {
        self.arrived
    }

    /// Takes what arrives at a tick in these lanes, after all ticks before that were marked, and
    /// tells whether it is something else in some lane.
    pub fn arrive(&mut self, t: u32, lanes: u64, marks: &mut Marks) -> bool
        requires { t < 4000 }
    {
        let place = self.place(t);
        if let Some(changed) = self.changes.get_mut(place) {
            self.delayed = self.delayed.turns(*changed);
            *changed = Pair64::OFF;
        }
        let before = self.arrived;
        self.arrived = self.timers.feed(t, self.delayed, lanes, marks);
        before.turns(self.arrived).lanes() & lanes != 0
    }

    /// The key at a tick in these lanes. No delay is 0. The ticks at which it comes are marked.
    pub fn send(&mut self, t: u32, key: Pair64, lanes: u64, marks: &mut Marks)
        requires { t < 4000 }
    {
        let turns = self.sent.turns(key);
        let mut changed = turns.lanes() & lanes;
        self.sent = key;
        'lanes: while changed != 0 {
            let lane = lowest(changed);
            changed = rest(changed);
            let comes = t + self.base[lane as usize] as u32;
            let place = self.place(comes);
            if let Some(turned) = self.changes.get_mut(place) {
                *turned = turned.turns(turns.within(only(lane)));
            }
            marks.put(comes);
        }
    }

    // The place of a tick in the ring.
    fn place(&self, t: u32) -> usize {
        t as usize % self.changes.len().max(1)
    }
}

// The greatest of the lanes.
fn greatest(ticks: [u16; 64]) -> u16 {
    let mut greatest = 0;
    for lane in 0..64 {
        greatest = ticks[lane].max(greatest);
    }
    greatest
}
