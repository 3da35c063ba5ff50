//! A fact with all that it rests on.

ghost use Rattle.std.specs.Prelude.{◌≡◌, ◌≤◌, ◌<◌, IfOk, IfSome, OnOk, length};
ghost use Rattle.judge_why.specs.{Facts.IsFact, Facts.IsFactOf};
ghost use Rattle.judge_why.specs.Plays.{IsPlay, IsSpot, play_of};
ghost use Rattle.judge_why.specs.Reasons.{AddsReason, IsWhy, depth_below as below_of, most};
ghost use Rattle.judge_why.specs.Reasons.{is_of as is_fact_of, tells as tells_so};

use crate::causes::{first_cause, second_cause};
use crate::fact::{Fact, Spot};
use crate::levels::is_on;
use crate::play::Play;
use crate::stretch::{begins, ends};
use model_line::Memory;
use std::alloc::Global;

// How many facts a reason has at most.
const MOST: usize = 512;

/// Why a gate of the net is on or off at a tick: what is so of it, and then of all that it rests on,
/// each fact before those that it rests on; at most 512 facts.
pub fn why(alloc: Global, play: &Play<'_>, spot: Spot) -> Result<Vec<Fact>, Memory>
    requires play { IsPlay play.now }
    requires spot { IsSpot (play_of play.now) spot }
    ensures { IfOk result (λ facts. IsWhy (play_of play.now) spot facts.items) }
{
    let mut facts = Vec::new(alloc);
    explain(play, Some(spot), 0, &mut facts)?;
    Ok(facts)
}

// Adds what is so of a gate at a tick, and what it rests on.
fn explain(
    play: &Play<'_>,
    spot: Option<Spot>,
    depth: u32,
    facts: &mut Vec<Fact>,
) -> Result<(), Memory>
    requires play { IsPlay play.now }
    requires spot { IfSome spot (IsSpot (play_of play.now)) }
    requires few { length facts.old.items ≤ most }
    requires depth { depth ≤ length facts.old.items }
    ensures { OnOk result
        (AddsReason (play_of play.now) depth spot facts.old.items facts.new.items) }
{
    let Some(spot) = spot else {
        return Ok(());
    };
    if facts.len() >= MOST || tells(facts.as_slice(), spot) {
        return Ok(());
    }
    let fact = fact_at(play, spot, depth);
    facts.push(fact)?;
    let below = depth_below(play, &fact);
    explain(play, first_cause(play, &fact), below, facts)?;
    explain(play, second_cause(play, &fact), below, facts)
}

// Whether one of the facts is of this gate at this tick.
fn tells(facts: &[Fact], spot: Spot) -> bool
    ensures { result ≡ tells_so facts.now spot }
{
    facts.iter().any(|fact| is_of(spot, fact))
}

fn is_of(spot: Spot, fact: &Fact) -> bool
    ensures { result ≡ is_fact_of spot fact.now }
{
    fact.gate == spot.gate && fact.tick == spot.tick
}

// What is so of a gate at a tick.
fn fact_at(play: &Play<'_>, spot: Spot, depth: u32) -> Fact
    requires play { IsPlay play.now }
    requires spot { IsSpot (play_of play.now) spot }
    ensures is { IsFact (play_of play.now) spot depth result }
    ensures there { IsFactOf (play_of play.now) result }
{
    let level = is_on(play, spot);
    Fact {
        gate: spot.gate,
        tick: spot.tick,
        level,
        from: begins(play, spot, level),
        to: ends(play, spot, level),
        depth,
    }
}

// How deep that is on which a fact rests: one deeper, if it is told.
fn depth_below(play: &Play<'_>, fact: &Fact) -> u32
    requires { fact.now.depth < most }
    ensures { result ≡ below_of (play_of play.now) fact.now }
{
    if is_told(play, fact.gate) {
        fact.depth + 1
    } else {
        fact.depth
    }
}

// Whether a gate is told.
fn is_told(play: &Play<'_>, gate: u32) -> bool
    ensures { result ≡ (play_of play.now).told gate }
{
    match play.told.get(gate as usize) {
        Some(told) => *told,
        None => false,
    }
}
