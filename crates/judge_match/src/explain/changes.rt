//! Where signals change.

ghost use Rattle.std.specs.Prelude.{◌≡◌, ◌≤◌, ◌<◌, ◌↔◌, ◌++◌, false, true, IsTrue, IfOk, OnOk};
ghost use Rattle.std.specs.Prelude.{length};
ghost use Rattle.std.specs.List.{AllZip};
ghost use Rattle.run_changes.specs.changes.PlayedTracks.{is_on};
ghost use Rattle.judge_match.specs.explain.Changes.{changes as changes_of, turns, AreNear};
ghost use Rattle.judge_match.specs.explain.Asked.{level_in, AreLevels};
ghost use Rattle.judge_match.specs.explain.Answers.{paired as paired_of};

use crate::explain::paired::Paired;
use model_line::Memory;
use run_signal::{Level, Signal, Track};
use std::alloc::Global;

/// The ticks at which these levels change, off before the first.
pub fn changes(alloc: Global, levels: &[bool]) -> Result<Vec<u32>, Memory>
    requires { length levels.now ≤ 4000 }
    ensures { IfOk result (λ ticks. ticks.items
        ≡ changes_of (level_in levels.now) (length levels.now)) }
{
    let mut ticks = Vec::new(alloc);
    for t in 0..levels.len() {
        if turns_at(levels, t) {
            ticks.push(t as u32)?;
        }
    }
    Ok(ticks)
}

// Whether the level at a tick is another than before.
fn turns_at(levels: &[bool], t: usize) -> bool
    requires { t < length levels.now }
    ensures { result ≡ turns (level_in levels.now) t }
{
    if t == 0 {
        levels[0]
    } else {
        levels[t] != levels[t - 1]
    }
}

/// The ticks at which a track changes.
pub fn track_changes(alloc: Global, track: &Track<Level>) -> Result<Vec<u32>, Memory>
    ensures { IfOk result (λ ticks. ticks.items
        ≡ changes_of (is_on track.now) (length track.now.keys)) }
{
    let levels = track_levels(alloc, track)?;
    changes(alloc, &levels)
}

// The levels of a track.
fn track_levels(alloc: Global, track: &Track<Level>) -> Result<Vec<bool>, Memory>
    ensures levels { IfOk result (λ levels.
        AreLevels (length track.now.keys) (is_on track.now) levels.items) }
    ensures short { length track.now.keys ≤ 4000 }
{
    let mut levels = Vec::new(alloc);
    for t in 0..track.len() {
        levels.push(track.at(t).must(0))?;
    }
    Ok(levels)
}

/// Whether there are as many changes of both, each at most so far from the other.
pub fn are_near(within: u32, recorded: &[u32], played: &[u32]) -> bool
    ensures { IsTrue result ↔ AllZip (AreNear within) recorded.now played.now }
{
    if recorded.len() != played.len() {
        return false;
    }
    for i in 0..recorded.len() {
        if !is_near(within, recorded[i], played[i]) {
            return false;
        }
    }
    true
}

// Whether two ticks are at most so far apart.
fn is_near(within: u32, a: u32, b: u32) -> bool
    ensures { IsTrue result ↔ AreNear within a b }
{
    let within = within as u64;
    a as u64 <= b as u64 + within && b as u64 <= a as u64 + within
}

/// Appends the changes of a signal side by side.
pub fn push_paired(
    terminal: u32,
    trip: bool,
    recorded: &[u32],
    played: &[u32],
    rows: &mut Vec<Paired>,
) -> Result<(), Memory>
    ensures { OnOk result (rows.new.items
        ≡ rows.old.items ++ paired_of terminal trip true recorded.now played.now) }
{
    let count = recorded.len().min(played.len());
    let mut level = true;
    for i in 0..count {
        rows.push(Paired {
            terminal,
            trip,
            level,
            recorded: recorded[i],
            played: played[i],
        })?;
        level = !level;
    }
    Ok(())
}
