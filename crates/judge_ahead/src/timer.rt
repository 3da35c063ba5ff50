//! A timer in 64 lanes.

ghost use Rattle.std.specs.Prelude.{◌<◌, ◌≤◌};

use crate::bits::{holds, lowest, only, rest};

/// The pickup and the dropout of a timer in each of 64 lanes, in ticks.
#[derive(Clone, Copy)]
pub struct Times64 {
    pub pickup: [u16; 64],
    pub dropout: [u16; 64],
}

// no tick
const NEVER: u16 = u16::MAX;

/// A timer in 64 lanes: on once its input was on for the pickup, and off no sooner than the dropout
/// after that. It is looked at where its input changes, and where a lane is due.
#[derive(Drop)]
pub struct Timer64 {
    lanes: [Lane; 64],
    /// When each lane is due: then it answers otherwise, if its input stays.
    next: [u16; 64],
    /// The least of these.
    due: u16,
    input: u64,
    output: u64,
}

/// A timer in one lane.
#[derive(Clone, Copy)]
struct Lane {
    pickup: u16,
    dropout: u16,
    /// Since when the input is on.
    start: u16,
    /// The last tick at which it was on by its input.
    last: u16,
}

impl Lane {
    // Before the first tick; the input was off.
    fn new(pickup: u16, dropout: u16) -> Lane {
        Lane {
            pickup,
            dropout,
            start: NEVER,
            last: NEVER,
        }
    }

    // Takes the input at a tick.
    fn take(&mut self, t: u32, on: bool)
        requires { t < 4000 }
    {
        if on {
            if self.start == NEVER {
                self.start = t as u16;
            }
            return;
        }
        if self.reached() < t {
            self.last = (t - 1) as u16;
        }
        self.start = NEVER;
    }

    // When the input was on for the pickup; past each run where it is off.
    fn reached(self) -> u32
        ensures { result < 131072 }
    {
        self.start as u32 + self.pickup as u32
    }

    // Until when it stays on after its input; past each run where it never was on by it.
    fn until(self) -> u32
        ensures { result < 131072 }
    {
        self.last as u32 + self.dropout as u32
    }

    // Whether it stays on after its input.
    fn stays(self, t: u32) -> bool {
        self.last != NEVER && t <= self.until()
    }

    // When it answers otherwise, if its input stays.
    fn due(self, t: u32) -> u16 {
        let mut due = self.reached();
        if due <= t {
            return NEVER;
        }
        if self.stays(t) {
            due = due.min(self.until() + 1);
        }
        due.min(NEVER as u32) as u16
    }
}

impl Timer64 {
    /// A timer before the first tick, whose input was off.
    pub fn new(times: &Times64) -> Timer64 {
        let mut lanes = [Lane::new(0, 0); 64];
        for lane in 0..64 {
            lanes[lane] = Lane::new(times.pickup[lane], times.dropout[lane]);
        }
        Timer64 {
            lanes,
            next: [NEVER; 64],
            due: NEVER,
            input: 0,
            output: 0,
        }
    }

    /// The next tick at which some lane is due; past each run where none is.
    pub fn due(&self) -> u32 {
        self.due as u32
    }

    /// What it is at a tick in these lanes, with this input, after all ticks before at which its
    /// input changed or a lane was due.
    pub fn feed(&mut self, t: u32, input: u64, lanes: u64) -> u64
        requires { t < 4000 }
    {
        let mut touched = (input ^ self.input) & lanes;
        if self.due as u32 <= t {
            touched |= self.lanes_due(t);
        }
        if touched == 0 {
            return self.output;
        }
        self.input = input;
        'lanes: while touched != 0 {
            let lane = lowest(touched);
            touched = rest(touched);
            self.look(t, lane, holds(input, lane));
        }
        self.due = self.least_due();
        self.output
    }

    // The lanes that are due at a tick.
    fn lanes_due(&self, t: u32) -> u64 {
        let mut lanes = 0;
        for lane in 0..64 {
            if self.next[lane] as u32 <= t {
                lanes |= only(lane as u32);
            }
        }
        lanes
    }

    fn least_due(&self) -> u16 {
        let mut least = NEVER;
        for lane in 0..64 {
            least = least.min(self.next[lane]);
        }
        least
    }

    // Takes a tick in one lane.
    fn look(&mut self, t: u32, lane: u32, on: bool)
        requires tick { t < 4000 }
        requires lane { lane < 64 }
    {
        let place = lane as usize;
        let mut own = self.lanes[place];
        own.take(t, on);
        self.lanes[place] = own;
        self.next[place] = own.due(t);
        self.output &= !only(lane);
        if own.reached() <= t || own.stays(t) {
            self.output |= only(lane);
        }
    }
}
