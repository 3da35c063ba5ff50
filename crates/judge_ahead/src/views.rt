//! Sixty-four views of a line's timings.

ghost use Rattle.std.specs.Prelude.{◌<◌};

use crate::bits::ALL;
use crate::channel::Window64;
use crate::lists::{at, push};
use crate::rails::Rails64;
use crate::span::Assumed;
use crate::timer::Times64;
use model_line::{Line, Memory};
use model_logic::Time;
use run_signal::Within;
use std::alloc::Global;

/// An interval for each parameter in each of 64 lanes, for each channel how its delay moves within
/// its own, and what is assumed of echoes.
#[derive(Drop)]
pub struct Views64 {
    ends: Vec<Ends64>,
    windows: Vec<Window64>,
    assumed: Vec<Assumed64>,
    /// The lanes that are views; the others stand still.
    lanes: u64,
}

/// An interval in each of 64 lanes.
#[derive(Clone, Copy)]
struct Ends64 {
    least: [u16; 64],
    greatest: [u16; 64],
}

/// What is assumed in some lanes.
#[derive(Clone, Copy)]
pub struct Assumed64 {
    pub lanes: u64,
    pub one: Assumed,
}

impl Views64 {
    /// Views in these lanes, of a line with no parameters.
    pub fn bare(alloc: Global, lanes: u64) -> Views64 {
        Views64 {
            ends: Vec::new(alloc),
            windows: Vec::new(alloc),
            assumed: Vec::new(alloc),
            lanes,
        }
    }

    /// Takes these intervals of a line's parameters in each lane, its delays moving, and nothing
    /// assumed.
    pub fn begin(&mut self, line: &Line, ends: &[Within]) -> Result<(), Memory> {
        for one in ends {
            push(&mut self.ends, ends_in_all(*one))?;
        }
        for channel in 0..line.channels.len() {
            let delay = ends_at(ends, line.delay_of(channel as u32));
            push(&mut self.windows, window(delay))?;
        }
        Ok(())
    }

    /// Takes these intervals, and assumes these cases in each lane.
    pub fn begin_under(
        &mut self,
        line: &Line,
        ends: &[Within],
        assumed: &[Assumed],
    ) -> Result<(), Memory> {
        self.begin(line, ends)?;
        for one in assumed {
            self.assume(ALL, *one)?;
        }
        Ok(())
    }

    /// Another interval for a parameter that is no delay, in one lane.
    pub fn set(&mut self, lane: u32, param: u32, least: u32, greatest: u32)
        requires { lane < 64 }
    {
        if let Some(ends) = self.ends.get_mut(param as usize) {
            ends.least[lane as usize] = ticks(least);
            ends.greatest[lane as usize] = ticks(greatest);
        }
    }

    /// A channel's delay is this one, in one lane.
    pub fn fix(&mut self, lane: u32, channel: usize, delay: u32)
        requires { lane < 64 }
    {
        if let Some(window) = self.windows.get_mut(channel) {
            window.base[lane as usize] = ticks(delay);
            put(&mut window.rails, lane, 0, 0);
        }
    }

    /// A channel's delay moves so that what arrives is what must, or what may, whichever is asked
    /// for, in one lane.
    pub fn lean(&mut self, lane: u32, channel: usize, may: bool)
        requires { lane < 64 }
    {
        if let Some(window) = self.windows.get_mut(channel) {
            let place = lane as usize;
            let rails = &mut window.rails;
            let wide = rails.may.dropout[place].max(rails.must.pickup[place]);
            let (pickup, dropout) = if may { (0, wide) } else { (wide, 0) };
            put(rails, lane, pickup, dropout);
        }
    }

    /// Assumes one of the two cases of a span in these lanes.
    pub fn assume(&mut self, lanes: u64, one: Assumed) -> Result<(), Memory> {
        push(&mut self.assumed, Assumed64 { lanes, one })
    }

    /// What is assumed.
    pub fn assumed(&self) -> &[Assumed64] {
        &self.assumed
    }

    /// The lanes that are views.
    pub fn lanes(&self) -> u64 {
        self.lanes
    }

    /// How the rails take a timer: what must be with the greatest pickup and the least dropout, what
    /// may be with the least pickup and the greatest dropout.
    pub fn rails(&self, pickup: Time, dropout: Time) -> Rails64 {
        let pickup = self.ends_of(pickup);
        let dropout = self.ends_of(dropout);
        Rails64 {
            must: times(pickup.greatest, dropout.least),
            may: times(pickup.least, dropout.greatest),
        }
    }

    /// The least that a time is in each lane.
    pub fn least_of(&self, time: Time) -> [u16; 64] {
        self.ends_of(time).least
    }

    // The interval of a time in each lane.
    fn ends_of(&self, time: Time) -> Ends64 {
        let none = ends_in_all(Within::new(0, 0));
        match time {
            Time::Zero => none,
            Time::Param(param) => at(&self.ends, param as usize, none),
        }
    }

    /// How the delays move, for each channel.
    pub fn windows(&self) -> &[Window64] {
        &self.windows
    }
}

// A number of ticks, at most 4,000.
fn ticks(number: u32) -> u16 {
    number.min(4000) as u16
}

// The same interval in each lane.
fn ends_in_all(ends: Within) -> Ends64 {
    Ends64 {
        least: [ticks(ends.least()); 64],
        greatest: [ticks(ends.greatest()); 64],
    }
}

fn times(pickup: [u16; 64], dropout: [u16; 64]) -> Times64 {
    Times64 { pickup, dropout }
}

// The window of a delay that moves within its interval.
fn window(delay: Within) -> Window64 {
    let wide = ticks(delay.greatest().saturating_sub(delay.least()));
    Window64 {
        base: [ticks(delay.least()); 64],
        rails: Rails64 {
            must: times([wide; 64], [0; 64]),
            may: times([0; 64], [wide; 64]),
        },
    }
}

// The same times on both rails, in one lane.
fn put(rails: &mut Rails64, lane: u32, pickup: u16, dropout: u16)
    requires { lane < 64 }
{
    let lane = lane as usize;
    rails.must.pickup[lane] = pickup;
    rails.must.dropout[lane] = dropout;
    rails.may.pickup[lane] = pickup;
    rails.may.dropout[lane] = dropout;
}

/// The interval of a parameter; 0 past the last.
pub fn ends_at(ends: &[Within], param: u32) -> Within {
    at(ends, param as usize, Within::new(0, 0))
}
