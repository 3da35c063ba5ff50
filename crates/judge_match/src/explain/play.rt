//! Plays of timings.

ghost use Rattle.std.specs.Prelude.{◌≡◌, ◌<◌, ◌↔◌, ◌++◌, ℕ, Bool, false, true, IsTrue, IfOk, OnOk, length};
ghost use Rattle.model_line.specs.Parameters.{terminal_count};
ghost use Rattle.model_logic.specs.Histories.{History, IsLineHistory};
ghost use Rattle.model_timing.specs.{Inside.IsTimingInside, Choice.timing_choice};
ghost use Rattle.run_changes.specs.{changes.PlayedTracks.played, changes.PlayedTracks.is_shown};
ghost use Rattle.run_step.specs.Ticks.{AreSent};
ghost use Rattle.judge_match.specs.explain.Changes.{HaveSameChanges, changes as changes_of};
ghost use Rattle.judge_match.specs.explain.Explains.{Explains, IsNear, IsPlayed, AreNearEach};
ghost use Rattle.judge_match.specs.explain.Answers.{paired, paired_changes, paired_terminal};
ghost use Rattle.judge_match.specs.explain.Asked.{AreRecorded, IsQuestion, recorded_of};

use crate::explain::changes::{are_near, push_paired, track_changes};
use crate::explain::paired::Paired;
use crate::explain::question::Question;
use crate::explain::recorded::Recorded;
use model_line::{Line, Memory};
use model_logic::laws::line_laws;
use model_timing::Timing;
use run_changes::changes::{Tracks, run_tracks};
use run_signal::{Level, Track};
use run_step::laws::a_timing_is_one_choice;
use std::alloc::Global;

/// Whether a timing explains the record.
pub fn explains(alloc: Global, q: &Question, timing: &Timing) -> Result<bool, Memory>
    requires question { IsQuestion q.now }
    requires inside { IsTimingInside q.now.compiled.line.now timing.now }
    ensures { IfOk result (λ yes.
        IsTrue yes ↔ Explains q.now.compiled.line.now q.now.script.now q.now.within
        (recorded_of q.now) timing.now) }
{
    let tracks = play(alloc, q, timing)?;
    Ok(
        are_all_near(alloc, q, &tracks.keys, &q.keys)?
            && are_all_near(alloc, q, &tracks.trips, &q.trips)?,
    )
}

/// The changes of the record and of the play of a timing, side by side.
pub fn rows(alloc: Global, q: &Question, timing: &Timing) -> Result<Vec<Paired>, Memory>
    requires question { IsQuestion q.now }
    requires inside { IsTimingInside q.now.compiled.line.now timing.now }
    ensures { IfOk result (λ rows. (h : History) →
        IsLineHistory q.now.compiled.line.now q.now.script.now
        (timing_choice q.now.compiled.line.now timing.now) h →
        rows.items ≡ paired_changes q.now.compiled.line.now (recorded_of q.now) h) }
{
    let tracks = play(alloc, q, timing)?;
    let mut rows = Vec::new(alloc);
    for k in 0..q.compiled.line.terminals.len() {
        push_terminal(alloc, q, &tracks, k, &mut rows)?;
    }
    Ok(rows)
}

// Appends the changes of a terminal's key, and then those of its trip.
fn push_terminal(
    alloc: Global,
    q: &Question,
    tracks: &Tracks<Level>,
    k: usize,
    rows: &mut Vec<Paired>,
) -> Result<(), Memory>
    requires question { IsQuestion q.now }
    requires terminal { k < terminal_count q.now.compiled.line.now }
    requires keys { AreSent (terminal_count q.now.compiled.line.now) q.now.compiled.line.now.horizon
        q.now.compiled.line.now.horizon tracks.now.keys.items }
    requires trips { AreSent
        (terminal_count q.now.compiled.line.now) q.now.compiled.line.now.horizon
        q.now.compiled.line.now.horizon tracks.now.trips.items }
    ensures { OnOk result (rows.new.items ≡ rows.old.items
        ++ paired_terminal q.now.compiled.line.now
        (recorded_of q.now) (played tracks.now.keys.items tracks.now.trips.items) k) }
{
    let keys = track_changes(alloc, &tracks.keys[k])?;
    let trips = track_changes(alloc, &tracks.trips[k])?;
    push_paired(k as u32, false, &q.keys[k].changes, &keys, rows)?;
    push_paired(k as u32, true, &q.trips[k].changes, &trips, rows)
}

// Plays a timing.
fn play(alloc: Global, q: &Question, timing: &Timing) -> Result<Tracks<Level>, Memory>
    requires question { IsQuestion q.now }
    requires inside { IsTimingInside q.now.compiled.line.now timing.now }
    ensures keys { IfOk result (λ tracks. AreSent (terminal_count q.now.compiled.line.now)
        q.now.compiled.line.now.horizon q.now.compiled.line.now.horizon tracks.keys.items) }
    ensures trips { IfOk result (λ tracks. AreSent (terminal_count q.now.compiled.line.now)
        q.now.compiled.line.now.horizon q.now.compiled.line.now.horizon tracks.trips.items) }
    ensures history { IfOk result (λ tracks.
        IsPlayed q.now.compiled.line.now q.now.script.now timing.now
        (played tracks.keys.items tracks.trips.items)) }
{
    line_laws();
    a_timing_is_one_choice();
    let values = timing.values();
    let steps = timing.steps();
    run_tracks::<Level>(alloc, &q.compiled, q.script, values, steps)
}

// Whether each of these tracks has the changes that were recorded.
fn are_all_near(
    alloc: Global,
    q: &Question,
    tracks: &[Track<Level>],
    all: &[Recorded],
) -> Result<bool, Memory>
    requires tracks { AreSent
        (terminal_count q.now.compiled.line.now) q.now.compiled.line.now.horizon
        q.now.compiled.line.now.horizon tracks.now }
    requires all { length all.now ≡ terminal_count q.now.compiled.line.now }
    ensures { IfOk result (λ yes. (u : ℕ → ℕ → Bool) →
        AreRecorded q.now.compiled.line.now q.now.within u all.now →
        IsTrue yes ↔ AreNearEach q.now.compiled.line.now q.now.within u (is_shown tracks.now)) }
{
    for k in 0..tracks.len() {
        let played = track_changes(alloc, &tracks[k])?;
        if !are_near(q.within, &all[k].changes, &played) {
            return Ok(false);
        }
    }
    Ok(true)
}
