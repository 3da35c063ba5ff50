//! How keys and trips stand between their changes.

ghost use Rattle.std.specs.Prelude.{◌≡◌, ℕ, ◌<◌, ◌≤◌, List, length, slice_get, Some, IfOk};
ghost use Rattle.run_signal.specs.declared.level.Level.{Level};
ghost use Rattle.run_signal.specs.SentKeys.{SentKeys};
ghost use Rattle.run_changes.specs.rows.StandingLaws.{AllStand};

use model_line::Memory;
use std::alloc::Global;

/// A signal's level, and the tick until which it keeps it: from there on it may be another one.
#[derive(Clone, Copy)]
pub struct Standing {
    pub level: bool,
    pub until: u32,
}

/// Those of a terminal's key and trip.
#[derive(Clone, Copy)]
pub struct Pair {
    pub key: Standing,
    pub trip: Standing,
}

// A signal is off before tick 0.
const FRESH: Standing = Standing {
    level: false,
    until: 0,
};

/// How so many keys and trips stand before tick 0.
pub fn fresh_pairs(alloc: Global, count: usize) -> Result<Vec<Pair>, Memory>
    ensures { IfOk result (λ pairs. (keys trips : List (SentKeys Level)) →
        AllStand count 0 keys trips pairs.items) }
{
    let pair = Pair {
        key: FRESH,
        trip: FRESH,
    };
    let mut pairs = Vec::with_capacity(alloc, count)?;
    pairs.resize(count, pair).unwrap();
    Ok(pairs)
}

/// The first tick, up to a bound, at which some key or trip may be another one.
pub fn next_change(pairs: &[Pair], bound: u32) -> u32
    ensures later { (t : ℕ) → t < bound → ((k : ℕ) (p : Pair) → slice_get pairs.now k ≡ Some p →
        (t < p.key.until) × (t < p.trip.until)) → t < result }
    ensures limited { result ≤ bound }
    ensures least { (k : ℕ) (p : Pair) → slice_get pairs.now k ≡ Some p →
        (result ≤ p.key.until) × (result ≤ p.trip.until) }
{
    let mut next = bound;
    for pair in pairs {
        next = next.min(stands_until(pair));
    }
    next
}

// The first tick at which the key or the trip may be another one.
fn stands_until(pair: &Pair) -> u32
    ensures later { (t : ℕ) → t < pair.now.key.until → t < pair.now.trip.until → t < result }
    ensures key { result ≤ pair.now.key.until }
    ensures trip { result ≤ pair.now.trip.until }
{
    pair.key.until.min(pair.trip.until)
}
