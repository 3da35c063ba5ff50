//! A span of ticks in each of 64 lanes.

ghost use Rattle.std.specs.Prelude.{◌≡◌, ◌<◌, ◌≤◌, ℕ, slice_index, IsTrue};
ghost use Rattle.model_history.specs.Rails.{single};
ghost use Rattle.run_signal.specs.{Bits.bit_on, Spans.InOrderInEachLane};
ghost use Rattle.judge_verdict.specs.boxes.Spans.{span_lists, span_ends, AreOrdered, AreAlike};

use run_signal::{Lanes64, Signal, Ticks64};
use std::marker::Model;

/// The whole numbers of ticks from one to another in each of 64 lanes. Contracts see the list of
/// the least numbers, and that of the greatest.
#[derive(Clone, Copy)]
pub struct Spans64 {
    least: Ticks64,
    greatest: Ticks64,
}

impl Model for Spans64 {
    ghost use Rattle.judge_verdict.specs.boxes.Spans.{SpanLists, span_lists, AreOrdered};

    ghost Value = { SpanLists };

    ghost view = { λ a. span_lists a.least a.greatest };

    ghost invariant = { λ a. AreOrdered (span_lists a.least a.greatest) };

    ghost inverse = { λ lists. record { least = lists.least; greatest = lists.greatest } };
}

impl Spans64 {
    pub fn new(least: Ticks64, greatest: Ticks64) -> Spans64
        requires { (lane : ℕ) → lane < 64 → slice_index least lane ≤ slice_index greatest lane }
        ensures { result ≡ span_lists least greatest }
    {
        Spans64 { least, greatest }
    }

    /// The span of this one number of ticks in each lane.
    pub fn sure(value: u32) -> Spans64
        requires { value ≤ 4000 }
        ensures exact { (lane : ℕ) → lane < 64 → span_ends result lane ≡ single value }
        ensures in_order { InOrderInEachLane 64 (span_ends result) }
    {
        let ticks = Lanes64::sure(value);
        Spans64::new(ticks, ticks)
    }

    /// The least number of ticks in each lane.
    pub fn least(&self) -> Ticks64
        ensures least { result ≡ self.now.least }
        ensures in_order { InOrderInEachLane 64 (span_ends self.now) }
    {
        let _limited = self.greatest.as_array();
        self.least
    }

    /// The greatest number of ticks in each lane.
    pub fn greatest(&self) -> Ticks64
        ensures greatest { result ≡ self.now.greatest }
        ensures in_order { InOrderInEachLane 64 (span_ends self.now) }
    {
        let _limited = self.greatest.as_array();
        self.greatest
    }

    /// The least number of ticks in a lane.
    pub fn least_in(&self, lane: u32) -> u32
        requires { lane < 64 }
        ensures least { result ≡ (span_ends self.now lane).least }
        ensures in_order { InOrderInEachLane 64 (span_ends self.now) }
    {
        let _limited = self.greatest.as_array();
        self.least.as_array()[lane as usize] as u32
    }

    /// The greatest number of ticks in a lane.
    pub fn greatest_in(&self, lane: u32) -> u32
        requires { lane < 64 }
        ensures greatest { result ≡ (span_ends self.now lane).greatest }
        ensures in_order { InOrderInEachLane 64 (span_ends self.now) }
    {
        self.greatest.as_array()[lane as usize] as u32
    }

    /// The lanes that have the span of this one.
    pub fn alike(&self, lane: u32) -> Lanes64
        requires { lane < 64 }
        ensures itself { IsTrue (bit_on result lane) }
        ensures alike { (k : ℕ) → k < 64 → IsTrue (bit_on result k) →
            span_ends self.now k ≡ span_ends self.now lane }
    {
        let greatest = Lanes64::alike(&self.greatest, lane);
        Lanes64::alike(&self.least, lane).and(greatest)
    }

    /// Whether all lanes have the span of the first one.
    pub fn is_alike(&self) -> bool
        ensures { IsTrue result → AreAlike self.now }
    {
        are_equal(self.least.as_array()) && are_equal(self.greatest.as_array())
    }
}

// Whether all are the first one.
fn are_equal(numbers: &[u16; 64]) -> bool
    ensures { IsTrue result → (lane : ℕ) → lane < 64 →
        slice_index numbers.now lane ≡ slice_index numbers.now 0 }
{
    let first = numbers[0];
    for lane in 0..64 {
        if numbers[lane] != first {
            return false;
        }
    }
    true
}
