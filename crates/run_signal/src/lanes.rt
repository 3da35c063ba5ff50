//! Sixty-four truth values that are known.
#![tactic(auto)]

ghost use Rattle.std.specs.Prelude.{◌≡◌, ◌≢◌, ℕ, ◌<◌, ◌≤◌, ◌==◌, List, length, slice_index};
ghost use Rattle.std.specs.Prelude.{IsTrue, IsFalse, ◌↔◌, ◌⊎◌};
ghost use Rattle.model_history.specs.Rails.{both};
ghost use Rattle.run_signal.specs.Bits.{bit_on, bit_rails};

use crate::Signal;
use crate::span::Tick;
use std::marker::Model;
use std::simd::prelude::*;

/// A truth value that is known in each of 64 lanes. Contracts see a number: lane i is its bit i.
#[derive(Clone, Copy)]
pub struct Lanes64 {
    bits: u64,
}

impl Model for Lanes64 {
    ghost Value = { ℕ };

    ghost view = { λ a. a.bits };

    ghost inverse = { λ bits. record { bits = bits } };
}

impl Lanes64 {
    /// The lanes whose bits are set.
    pub fn from_bits(bits: u64) -> Lanes64
        ensures { result ≡ bits }
    {
        Lanes64 { bits }
    }

    /// The lanes as bits.
    pub fn bits(self) -> u64
        ensures { result ≡ self }
    {
        self.bits
    }

    /// The first lane that is on, or 64.
    pub fn first(self) -> u32
        ensures on { result < 64 → IsTrue (bit_on self result) }
        ensures off { (k : ℕ) → k < 64 → k < result → IsFalse (bit_on self k) }
        ensures limited { result ≤ 64 }
    {
        let bits = self.bits();
        if bits == 0 {
            return 64;
        }
        bits.trailing_zeros()
    }

    /// The lanes that are on here and off there.
    pub fn without(self, other: Lanes64) -> Lanes64
        ensures { (k : ℕ) → k < 64 →
            IsFalse (bit_on result k) ↔ (IsFalse (bit_on self k) ⊎ IsTrue (bit_on other k)) }
    {
        self.and(other.not())
    }

    /// The same values but in this lane.
    pub fn with_lane(self, lane: u32, value: bool) -> Lanes64
        requires { lane < 64 }
        ensures lane { bit_rails result lane ≡ both value }
        ensures others { (k : ℕ) → k < 64 → k ≢ lane → bit_rails result k ≡ bit_rails self k }
    {
        let mask = 1 << lane;
        Lanes64 {
            bits: if value {
                self.bits | mask
            } else {
                self.bits & !mask
            },
        }
    }
}

/// A number of ticks in each of 64 lanes. Contracts see the list of 64 numbers.
#[derive(Clone, Copy)]
pub struct Ticks64 {
    values: [u16; 64],
}

impl Model for Ticks64 {
    ghost Value = { List ℕ };

    ghost view = { λ a. a.values };

    ghost invariant = { λ a. (lane : ℕ) → lane < 64 → slice_index a.values lane ≤ 4000 };

    ghost inverse = { λ values. record { values = values } };
}

impl Ticks64 {
    /// Lane i has the number at i.
    pub fn new(values: [Tick; 64]) -> Ticks64
        ensures { result ≡ values }
    {
        Ticks64 {
            values: numbers(&values),
        }
    }

    /// The numbers of all lanes.
    pub fn as_array(&self) -> &[u16; 64]
        ensures numbers { result.now ≡ self.now }
        ensures long { length self.now ≡ 64 }
        ensures limited { (lane : ℕ) → lane < 64 → slice_index self.now lane ≤ 4000 }
    {
        &self.values
    }

    /// The number of the lane.
    pub fn value(&self, lane: u32) -> Tick
        requires { lane < 64 }
        ensures { result ≡ slice_index self.now lane }
    {
        Tick::new(self.values[lane as usize] as u32)
    }
}

impl Ticks64 {
    /// The lanes that have this number.
    pub fn lanes_with(&self, number: u16) -> Lanes64
        ensures { (lane : ℕ) → lane < 64 →
            bit_on result lane ≡ (slice_index self.now lane == number) }
    {
        let numbers = u16x64::from_slice(&self.values);
        Lanes64::from_bits(bits_equal(numbers, u16x64::splat(number)))
    }
}

// The lanes where both numbers are the same, as bits.
fn bits_equal(a: u16x64, b: u16x64) -> u64
    ensures { (i : ℕ) → i < 64 → bit_on result i ≡ (slice_index a i == slice_index b i) }
{
    a.simd_eq(b).to_bitmask()
}

// The numbers of 64 ticks.
fn numbers(ticks: &[Tick]) -> [u16; 64]
    requires { length ticks.now ≡ 64 }
    ensures same { result ≡ ticks.now }
    ensures limited { (lane : ℕ) → lane < 64 → slice_index result lane ≤ 4000 }
{
    let mut lanes = [0; 64];
    for lane in 0..64 {
        lanes[lane] = ticks[lane].value() as u16;
    }
    lanes
}

impl Signal for Lanes64 {
    ghost use Rattle.std.specs.Prelude.{refl};
    ghost use Rattle.run_signal.specs.Bits.{lanes_signal};

    type Span = Ticks64;

    const LANES: u32 = 64;

    ghost LANES = { 64 };

    ghost signal = { lanes_signal };

    fn known(value: bool) -> Self {
        Lanes64 {
            bits: if value { u64::MAX } else { 0 },
        }
    }

    fn not(self) -> Self {
        let bits = self.bits();
        Lanes64 { bits: !bits }
    }

    fn and(self, other: Self) -> Self {
        Lanes64 {
            bits: self.bits & other.bits,
        }
    }

    fn or(self, other: Self) -> Self {
        Lanes64 {
            bits: self.bits | other.bits,
        }
    }

    fn same(self, other: Self) -> bool {
        self.bits == other.bits
    }

    fn must(self, lane: u32) -> bool {
        (self.bits >> lane) & 1 == 1
    }

    fn may(self, lane: u32) -> bool {
        self.must(lane)
    }

    fn sure(value: u32) -> Ticks64 {
        let value = value as u16;
        let values = [value; 64];
        Ticks64 { values }
    }

    fn least(span: &Ticks64, lane: u32) -> u32 {
        span.values[lane as usize] as u32
    }

    fn greatest(span: &Ticks64, lane: u32) -> u32 {
        span.values[lane as usize] as u32
    }

    fn alike(span: &Ticks64, lane: u32) -> Lanes64 {
        span.lanes_with(span.values[lane as usize])
    }

    ghost lanes_are = { refl };

    ghost must_implies_may = { λ x lane inside on. on };
}
