//! The levels of gates.

ghost use Rattle.std.specs.Prelude.{◌≡◌, ◌<◌};
ghost use Rattle.judge_why.specs.Plays.{IsPlay, IsSpot, play_of};
ghost use Rattle.model_logic.specs.SameTree.{same_value};

use crate::fact::Spot;
use crate::play::Play;
use net_gates::GateId;
use run_signal::Signal;

/// Whether a gate is on at a tick.
pub fn is_on(play: &Play<'_>, spot: Spot) -> bool
    requires play { IsPlay play.now }
    requires spot { IsSpot (play_of play.now) spot }
    ensures { result ≡ (play_of play.now).level spot.gate spot.tick }
{
    play.waves.at(GateId(spot.gate), spot.tick).must(0)
}

/// Whether a gate has a level at a tick.
pub fn has_level(play: &Play<'_>, spot: Spot, level: bool) -> bool
    requires play { IsPlay play.now }
    requires spot { IsSpot (play_of play.now) spot }
    ensures { result ≡ same_value ((play_of play.now).level spot.gate spot.tick) level }
{
    same(is_on(play, spot), level)
}

// Whether both are on, or neither.
fn same(one: bool, other: bool) -> bool
    ensures { result ≡ same_value one other }
{
    if one { other } else { !other }
}
