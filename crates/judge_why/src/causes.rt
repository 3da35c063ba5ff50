//! What a fact rests on.

ghost use Rattle.std.specs.Prelude.{◌≡◌, ◌<◌, ◌≤◌, IfSome};
ghost use Rattle.model_line.specs.Parameters.{channel_count};
ghost use Rattle.judge_why.specs.Plays.{IsPlay, IsSpot, play_of};
ghost use Rattle.judge_why.specs.Causes.{first_cause as first_of, if_alike, looked_at};
ghost use Rattle.judge_why.specs.Causes.{second_cause as second_of, sent_at, spot_at};
ghost use Rattle.judge_why.specs.Facts.{IsFactOf};
ghost use Rattle.net_gates.specs.NetOf.{key_of};

use crate::delay::{delay_at, sender};
use crate::fact::{Fact, Spot};
use crate::levels::has_level;
use crate::play::Play;
use net_gates::{Gate, GateId};

/// The first gate that a fact rests on, and when.
pub fn first_cause(play: &Play<'_>, fact: &Fact) -> Option<Spot>
    requires play { IsPlay play.now }
    requires fact { IsFactOf (play_of play.now) fact.now }
    ensures is { result ≡ first_of (play_of play.now) fact.now }
    ensures there { IfSome result (IsSpot (play_of play.now)) }
{
    let _laws = play.compiled.net.len();
    match *play.compiled.net.gate(GateId(fact.gate)) {
        Gate::Const(_) | Gate::Seen(_) | Gate::Loss(_) => None,
        Gate::Raw(channel) => sent(play, fact, channel),
        Gate::Not(x) => operand(play, fact, x, fact.tick),
        Gate::And(x, _) => alike(play, fact, x),
        Gate::Or(x, _) => alike(play, fact, x),
        Gate::Timer(x, _, _) => operand(play, fact, x, looked_at_tick(fact)),
        Gate::Seal(x, _) => operand(play, fact, x, looked_at_tick(fact)),
    }
}

/// The second.
pub fn second_cause(play: &Play<'_>, fact: &Fact) -> Option<Spot>
    requires play { IsPlay play.now }
    requires fact { IsFactOf (play_of play.now) fact.now }
    ensures is { result ≡ second_of (play_of play.now) fact.now }
    ensures there { IfSome result (IsSpot (play_of play.now)) }
{
    let _laws = play.compiled.net.len();
    match *play.compiled.net.gate(GateId(fact.gate)) {
        Gate::And(_, y) => alike(play, fact, y),
        Gate::Or(_, y) => alike(play, fact, y),
        _ => None,
    }
}

// An operand, at a tick not later than that of the fact.
fn operand(play: &Play<'_>, fact: &Fact, gate: GateId, tick: u32) -> Option<Spot>
    requires fact { IsFactOf (play_of play.now) fact.now }
    requires below { gate.0 < fact.now.gate }
    requires past { tick ≤ fact.now.tick }
    ensures is { result ≡ spot_at gate.0 tick }
    ensures there { IfSome result (IsSpot (play_of play.now)) }
{
    Some(Spot { gate: gate.0, tick })
}

// The tick at which what lasts looks at its input.
fn looked_at_tick(fact: &Fact) -> u32
    requires { fact.now.from ≤ fact.now.tick }
    ensures is { result ≡ looked_at fact.now }
    ensures past { result ≤ fact.now.tick }
{
    if fact.level { fact.from } else { fact.tick }
}

// An operand, if it has the level of the fact.
fn alike(play: &Play<'_>, fact: &Fact, gate: GateId) -> Option<Spot>
    requires play { IsPlay play.now }
    requires fact { IsFactOf (play_of play.now) fact.now }
    requires below { gate.0 < fact.now.gate }
    ensures is { result ≡ if_alike (play_of play.now) fact.now gate.0 }
    ensures there { IfSome result (IsSpot (play_of play.now)) }
{
    let spot = Spot {
        gate: gate.0,
        tick: fact.tick,
    };
    if has_level(play, spot, fact.level) {
        Some(spot)
    } else {
        None
    }
}

// What arrives over a channel, where it was sent.
fn sent(play: &Play<'_>, fact: &Fact, channel: u32) -> Option<Spot>
    requires play { IsPlay play.now }
    requires fact { IsFactOf (play_of play.now) fact.now }
    requires channel { channel < channel_count play.now.compiled.line.now }
    ensures is { result ≡ sent_at (key_of (play_of play.now).net ((play_of play.now).from channel))
        ((play_of play.now).delay channel fact.now.tick) fact.now.tick }
    ensures there { IfSome result (IsSpot (play_of play.now)) }
{
    let delay = delay_at(play, channel, fact.tick);
    let key = play
        .compiled
        .net
        .key_gate(sender(play.compiled.line, channel));
    if delay <= fact.tick {
        Some(Spot {
            gate: key.0,
            tick: fact.tick - delay,
        })
    } else {
        None
    }
}
