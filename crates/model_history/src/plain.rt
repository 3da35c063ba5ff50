//! The definitions as plain, slow functions over histories that were recorded: one truth value a
//! tick, from tick 0 on.
#![tactic(auto)]

ghost use Rattle.std.specs.Prelude.{◌≡◌, ◌≤◌, ◌<◌, ◌↔◌, ◌^◌, ℕ, IsTrue, length};
ghost use Rattle.model_history.specs.Elements.{hold, timed, sealed, delayed};
ghost use Rattle.model_history.specs.Recorded.{at};

/// Whether the history is on at the tick. It is off outside of what was recorded.
pub fn is_on(recorded: &[bool], tick: usize) -> bool
    ensures { result ≡ at recorded.now tick }
{
    tick < recorded.len() && recorded[tick]
}

/// Whether the history has been on for `pickup` ticks before the tick, and is on at it.
pub fn holds(recorded: &[bool], pickup: usize, tick: usize) -> bool
    requires { tick < length recorded.now }
    ensures { result ≡ hold (at recorded.now) pickup tick }
{
    pickup <= tick && is_on_throughout(recorded, tick - pickup, tick)
}

/// The timed element at the tick.
pub fn timed_at(recorded: &[bool], pickup: usize, dropout: usize, tick: usize) -> bool
    requires { tick < length recorded.now }
    ensures { result ≡ timed (at recorded.now) pickup dropout tick }
{
    for start in tick.saturating_sub(dropout)..tick + 1 {
        if holds(recorded, pickup, start) {
            return true;
        }
    }
    false
}

/// The seal at the tick, set by one history and kept by the other.
pub fn sealed_at(set: &[bool], keep: &[bool], tick: usize) -> bool
    requires { tick < length set.now }
    ensures { result ≡ sealed (at set.now) (at keep.now) tick }
{
    for start in 0..tick + 1 {
        if is_on(set, start) && is_on_throughout(keep, start + 1, tick) {
            return true;
        }
    }
    false
}

/// What the history was `delay` ticks before the tick.
pub fn delayed_at(recorded: &[bool], delay: usize, tick: usize) -> bool
    ensures { result ≡ delayed (at recorded.now) delay tick }
{
    delay <= tick && is_on(recorded, tick - delay)
}

// Whether the history is on at each tick from the first to the last.
fn is_on_throughout(recorded: &[bool], first: usize, last: usize) -> bool
    requires { last < 2 ^ 63 }
    ensures { IsTrue result ↔ ((r : ℕ) → first ≤ r → r ≤ last → IsTrue (at recorded.now r)) }
{
    for tick in first..last + 1 {
        if !is_on(recorded, tick) {
            return false;
        }
    }
    true
}
