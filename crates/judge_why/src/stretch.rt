//! From when a gate has had a level, and until when it keeps it.

ghost use Rattle.std.specs.Prelude.{◌≡◌, ◌<◌, ◌≤◌, ◌+◌, ℕ, not};
ghost use Rattle.judge_why.specs.Plays.{IsPlay, IsSpot, play_of};

use crate::fact::Spot;
use crate::levels::has_level;
use crate::play::Play;

/// The first tick from which on a gate has had the level that it has at a tick.
pub fn begins(play: &Play<'_>, spot: Spot, level: bool) -> u32
    requires play { IsPlay play.now }
    requires spot { IsSpot (play_of play.now) spot }
    requires level { (play_of play.now).level spot.gate spot.tick ≡ level }
    ensures past { result ≤ spot.tick }
    ensures stays { (r : ℕ) → result ≤ r → r ≤ spot.tick →
        (play_of play.now).level spot.gate r ≡ level }
    ensures begins { (r : ℕ) → r + 1 ≡ result → (play_of play.now).level spot.gate r ≡ not level }
{
    let mut from = spot.tick;
    'ticks: while from > 0 {
        let before = Spot {
            gate: spot.gate,
            tick: from - 1,
        };
        if !has_level(play, before, level) {
            return from;
        }
        from -= 1;
    }
    from
}

/// The first tick after that one at which it has it no more, or the end of the run.
pub fn ends(play: &Play<'_>, spot: Spot, level: bool) -> u32
    requires play { IsPlay play.now }
    requires spot { IsSpot (play_of play.now) spot }
    requires level { (play_of play.now).level spot.gate spot.tick ≡ level }
    ensures later { spot.tick < result }
    ensures within { result ≤ (play_of play.now).horizon }
    ensures stays { (r : ℕ) → spot.tick ≤ r → r < result →
        (play_of play.now).level spot.gate r ≡ level }
    ensures ends { result < (play_of play.now).horizon →
        (play_of play.now).level spot.gate result ≡ not level }
{
    let mut to = spot.tick + 1;
    'ticks: while to < play.compiled.line.horizon {
        let next = Spot {
            gate: spot.gate,
            tick: to,
        };
        if !has_level(play, next, level) {
            return to;
        }
        to += 1;
    }
    to
}
