//! The ticks at which a source changes.

ghost use Rattle.std.specs.Prelude.{◌≡◌, ◌++◌, IfOk, OnOk};
ghost use Rattle.file_records.specs.tracks.Tracks.{track_values};
ghost use Rattle.file_records.specs.tracks.Fields.{change_at, changes_of as all_changes, level_at as level_told};

use crate::tracks::track::Track;
use model_line::{Line, Memory};
use std::alloc::Global;

/// The level that a source tells at a tick.
pub fn level_at(track: &Track, t: u32) -> bool
    ensures { result ≡ level_told (track_values track.now) t }
{
    track.levels.get(t as usize).copied().unwrap_or(false)
}

// Adds the tick, if the level is another than at the tick before.
fn push_change(track: &Track, t: u32, changes: &mut Vec<u32>) -> Result<(), Memory>
    ensures { OnOk result (changes.new.items ≡ changes.old.items
        ++ change_at (track_values track.now) t) }
{
    if 0 < t && level_at(track, t - 1) != level_at(track, t) {
        changes.push(t)?;
    }
    Ok(())
}

/// The ticks at which the level of a source is another than at the tick before.
pub fn changes_of(alloc: Global, line: &Line, track: &Track) -> Result<Vec<u32>, Memory>
    ensures { IfOk result (λ v. v.items ≡ all_changes line.now (track_values track.now)) }
{
    let mut changes = Vec::new(alloc);
    for t in 0..line.horizon {
        push_change(track, t, &mut changes)?;
    }
    Ok(changes)
}
