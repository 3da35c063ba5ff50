//! A counter in 64 lanes.

ghost use Rattle.std.specs.Prelude.{◌<◌};

use crate::bits::holds;

// more than 512 gates at 4,000 ticks need
const PLACES: usize = 24;

// more than 4,000 needs
const FACTOR_PLACES: u32 = 12;

/// A number below 2 to the 24th in each of 64 lanes: a word for each binary place.
#[derive(Clone, Copy)]
pub struct Counter64 {
    places: [u64; PLACES],
}

impl Counter64 {
    /// 0 in each lane.
    pub fn new() -> Counter64 {
        Counter64 {
            places: [0; PLACES],
        }
    }

    /// Adds 1 in each of these lanes.
    pub fn add(&mut self, lanes: u64) {
        let mut carry = lanes;
        for place in 0..PLACES {
            if carry == 0 {
                return;
            }
            let over = self.places[place] & carry;
            self.places[place] ^= carry;
            carry = over;
        }
    }

    /// Takes 1 away in each of these lanes.
    pub fn take(&mut self, lanes: u64) {
        let mut borrow = lanes;
        for place in 0..PLACES {
            if borrow == 0 {
                return;
            }
            let under = !self.places[place] & borrow;
            self.places[place] ^= borrow;
            borrow = under;
        }
    }

    /// Adds another one, so many times: at most 4,095.
    pub fn add_times(&mut self, other: &Counter64, times: u32) {
        for shift in 0..FACTOR_PLACES {
            if times >> shift & 1 == 1 {
                self.add_shifted(other, shift as usize);
            }
        }
    }

    // Adds another one, moved up by so many places.
    fn add_shifted(&mut self, other: &Counter64, shift: usize) {
        let mut carry = 0;
        for place in shift..PLACES {
            let more = other.places[place - shift];
            let own = self.places[place];
            self.places[place] = own ^ more ^ carry;
            carry = (own & more) | (carry & (own ^ more));
        }
    }

    /// The number in a lane.
    pub fn value(&self, lane: u32) -> u32
        requires { lane < 64 }
    {
        let mut value = 0u32;
        for place in 0..PLACES {
            if holds(self.places[place], lane) {
                value |= 1u32 << place as u32;
            }
        }
        value
    }
}
