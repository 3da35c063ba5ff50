//! Parts that are excluded.

ghost use Rattle.std.specs.Prelude.{◌≡◌, ◌<◌, ℕ, Bool, Option, Some, IsTrue, IfOk, length};
ghost use Rattle.model_history.specs.Rails.{Covers, rails_at};
ghost use Rattle.model_line.specs.Parameters.{terminal_count};
ghost use Rattle.run_signal.specs.{Lanes.in_lane, Terns.tern_rails};
ghost use Rattle.run_changes.specs.changes.Tracks.{tracks_history};
ghost use Rattle.run_step.specs.{Ticks.AreSent, Runs.IsTheHistory};
ghost use Rattle.judge_match.specs.explain.Parts.{IsExcludedByRails, part_box};
ghost use Rattle.judge_match.specs.explain.Asked.{AreRecorded, IsOut, IsOutAt, IsPart, IsQuestion};
ghost use Rattle.judge_match.specs.explain.Asked.{recorded_of, tern_pairs};

use crate::explain::question::Question;
use crate::explain::recorded::Recorded;
use model_line::{Line, Memory};
use model_timing::Step;
use run_changes::changes::{Tracks, run_tracks};
use run_signal::{Signal, Tern, Track, Within};
use std::alloc::Global;

/// Whether the interval rules over a part exclude the record.
pub fn is_excluded(alloc: Global, q: &Question, part: &[Within]) -> Result<bool, Memory>
    requires question { IsQuestion q.now }
    requires part { IsPart q.now.compiled.line.now part.now }
    ensures { IfOk result (λ out. IsTrue out →
        IsExcludedByRails q.now.compiled.line.now q.now.script.now
        q.now.within (recorded_of q.now) part.now) }
{
    let tracks = run_part(alloc, q, part)?;
    Ok(
        is_out(q.compiled.line, &q.keys, &tracks.keys)
            || is_out(q.compiled.line, &q.trips, &tracks.trips),
    )
}

/// The interval history over a part.
pub fn run_part(alloc: Global, q: &Question, part: &[Within]) -> Result<Tracks<Tern>, Memory>
    requires question { IsQuestion q.now }
    requires part { IsPart q.now.compiled.line.now part.now }
    ensures keys { IfOk result (λ tracks. AreSent (terminal_count q.now.compiled.line.now)
        q.now.compiled.line.now.horizon q.now.compiled.line.now.horizon tracks.keys.items) }
    ensures trips { IfOk result (λ tracks. AreSent (terminal_count q.now.compiled.line.now)
        q.now.compiled.line.now.horizon q.now.compiled.line.now.horizon tracks.trips.items) }
    ensures history { IfOk result (λ tracks. IsTheHistory q.now.compiled.line.now q.now.script.now
        (part_box q.now.compiled.line.now part.now)
        (tracks_history (λ x _. tern_rails x) 0 tracks.keys.items tracks.trips.items)) }
{
    let steps: [Step<Within>; 0] = [];
    run_tracks::<Tern>(alloc, &q.compiled, q.script, part, &steps)
}

// Whether one of these tracks is out somewhere.
fn is_out(line: &Line, all: &[Recorded], tracks: &[Track<Tern>]) -> bool
    requires tracks { AreSent (terminal_count line.now) line.now.horizon line.now.horizon
        tracks.now }
    requires all { length all.now ≡ terminal_count line.now }
    ensures { (within : ℕ) (u : ℕ → ℕ → Bool) → AreRecorded line.now within u all.now →
        IsTrue result → IsOut line.now within u (tern_pairs tracks.now) }
{
    for k in 0..tracks.len() {
        if is_one_out(&all[k], &tracks[k]) {
            return true;
        }
    }
    false
}

// Whether a track is out at some tick.
fn is_one_out(recorded: &Recorded, track: &Track<Tern>) -> bool
    ensures { IsTrue result → IsOutAt recorded.now.stays.items
        (rails_at (in_lane (λ x _. tern_rails x) 0 track.now.keys)) }
{
    let count = recorded.stays.len().min(track.len() as usize);
    for t in 0..count {
        if excludes(recorded.stays[t], track.at(t as u32)) {
            return true;
        }
    }
    false
}

// Whether a value does not allow the level that is kept.
fn excludes(stays: Option<bool>, value: Tern) -> bool
    ensures { IsTrue result →
        (level : Bool) × (stays ≡ Some level) × ¬ (Covers (tern_rails value) level) }
{
    match stays {
        None => false,
        Some(true) => !value.may(0),
        Some(false) => value.must(0),
    }
}
