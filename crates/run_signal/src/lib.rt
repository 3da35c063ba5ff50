//! Signals, and what a run makes of them: timed elements and seals, and what a channel delivers.
//!
//! A signal is what is known of a truth value at a tick, in each of several lanes, on two rails:
//! whether it must be on, and whether it may be. `Level` is a truth value that is known, `Tern` one
//! that may be unknown, and `Lanes64` 64 that are known. What takes any `Signal` runs once for one
//! timing, for a whole box of timings, or for 64 timings at a time.
//!
//! - `timed`, `seal`: cells, which keep no history. Whatever the number of ticks, a timed cell has
//!   two counts for each rail, and a seal its last answer.
//! - `carried`, `track`: the keys that were sent, after a delay of which the least and the greatest
//!   number of ticks are known. A tick costs, whatever the number of keys sent: for a level one
//!   look at a key; for three values one where the key is the same since the greatest delay, else
//!   one for each delay of the span and rail; for 64 lanes one for each delay that some lanes have.
//!
//! Tracks alone take memory.
#![tactic(auto)]

mod carried;
mod carried_lanes;
mod carried_level;
mod carried_tern;
mod lane;
mod lanes;
mod laws;
mod level;
mod rail;
mod seal;
mod span;
mod tern;
mod timed;
mod timed_lanes;
mod timed_level;
mod timed_tern;
mod track;
mod vectors;

ghost use Rattle.std.specs.Prelude.{◌≡◌, ℕ, ◌<◌, ◌≤◌, IsTrue};
ghost use Rattle.model_history.specs.Rails.{IsSound, single, both, rails_not};
ghost use Rattle.model_history.specs.Rails.{rails_and};
ghost use Rattle.model_history.specs.Rails.{rails_or};
ghost use Rattle.run_signal.specs.Bits.{bit_on};
ghost use Rattle.run_signal.specs.{Signals.SignalOf, Spans.InOrderInEachLane};

pub use base_memory::Memory;
pub use carried::Carried;
pub use lanes::{Lanes64, Ticks64};
pub use laws::{a_seal_is_its_last_answer, elements_stay_in_a_stretch};
pub use level::Level;
pub use seal::SealCell;
pub use span::{Tick, Within};
pub use tern::{Tern, covers};
pub use timed::Timed;
pub use track::Track;

/// What is known of a truth value at a tick, in each lane below `LANES`.
pub trait Signal: Copy {
    /// A span of ticks in each lane: the least and the greatest of what a time may be.
    type Span: Copy;

    const LANES: u32;

    ghost LANES: { ℕ };

    /// The lanes, the two rails of a value and the two ends of a span in each.
    ghost signal: { SignalOf Self Self.Span };

    /// The value that is known to be this in each lane.
    fn known(value: bool) -> Self
        ensures { (lane : ℕ) → lane < signal.lanes → signal.rails result lane ≡ both value };

    fn not(self) -> Self
        ensures { (lane : ℕ) → lane < signal.lanes →
            signal.rails result lane ≡ rails_not (signal.rails self lane) };

    fn and(self, other: Self) -> Self
        ensures { (lane : ℕ) → lane < signal.lanes →
            signal.rails result lane ≡ rails_and (signal.rails self lane) (signal.rails other lane) };

    fn or(self, other: Self) -> Self
        ensures { (lane : ℕ) → lane < signal.lanes →
            signal.rails result lane ≡ rails_or (signal.rails self lane) (signal.rails other lane) };

    /// Whether both values are the same in each lane.
    fn same(self, other: Self) -> bool
        ensures { IsTrue result →
            (lane : ℕ) → lane < signal.lanes → signal.rails self lane ≡ signal.rails other lane };

    /// Whether the value must be on in the lane.
    fn must(self, lane: u32) -> bool
        requires { lane < signal.lanes }
        ensures { result ≡ (signal.rails self lane).must };

    /// Whether the value may be on in the lane.
    fn may(self, lane: u32) -> bool
        requires { lane < signal.lanes }
        ensures { result ≡ (signal.rails self lane).may };

    /// The span of this one number of ticks in each lane.
    fn sure(value: u32) -> Self::Span
        requires { value ≤ 4000 }
        ensures exact { (lane : ℕ) → lane < signal.lanes → signal.ends result lane ≡ single value }
        ensures in_order { InOrderInEachLane signal.lanes (signal.ends result) };

    /// The least number of ticks of the span in the lane.
    fn least(span: &Self::Span, lane: u32) -> u32
        requires { lane < signal.lanes }
        ensures least { result ≡ (signal.ends span.now lane).least }
        ensures in_order { InOrderInEachLane signal.lanes (signal.ends span.now) };

    /// The greatest number of ticks of the span in the lane.
    fn greatest(span: &Self::Span, lane: u32) -> u32
        requires { lane < signal.lanes }
        ensures greatest { result ≡ (signal.ends span.now lane).greatest }
        ensures in_order { InOrderInEachLane signal.lanes (signal.ends span.now) };

    /// This lane, and others whose spans have the ends that its span has.
    fn alike(span: &Self::Span, lane: u32) -> Lanes64
        requires { lane < signal.lanes }
        ensures itself { IsTrue (bit_on result lane) }
        ensures alike { (k : ℕ) → k < signal.lanes → IsTrue (bit_on result k) →
            signal.ends span.now k ≡ signal.ends span.now lane }
        ensures few { signal.lanes ≤ 64 };

    ghost lanes_are: { signal.lanes ≡ LANES };

    /// What must be may be.
    ghost must_implies_may: { (x : Self) (lane : ℕ) → lane < signal.lanes →
        IsSound (signal.rails x lane) };
}
