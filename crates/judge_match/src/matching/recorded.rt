//! A record as tracks.

ghost use Rattle.std.specs.Prelude.{length, IfOk};
ghost use Rattle.model_line.specs.Parameters.{terminal_count};
ghost use Rattle.model_logic.specs.Histories.{IsSameHistory};
ghost use Rattle.run_waves.specs.waves.Waves.{AreWaves};
ghost use Rattle.run_changes.specs.changes.PlayedTracks.{played};
ghost use Rattle.run_step.specs.{Ticks.AreSent, Ticks.HasKeys};
ghost use Rattle.judge_match.specs.matching.Seen.{AreSeen, IsAsSeen, AreAsSeen, seen_history};

use crate::matching::seen::Seen;
use model_line::{Line, Memory};
use run_changes::changes::Tracks;
use run_signal::{Level, Signal, Track};
use run_waves::derived::nth;
use run_waves::waves::Runs;
use std::alloc::Global;

/// What was seen, as the tracks of keys and trips.
pub fn seen_tracks(alloc: Global, line: &Line, seen: &Seen) -> Result<Tracks<Level>, Memory>
    requires seen { AreSeen line.now seen.now }
    ensures keys { IfOk result (λ tracks. AreSent (terminal_count line.now) line.now.horizon
        line.now.horizon tracks.keys.items) }
    ensures trips { IfOk result (λ tracks. AreSent (terminal_count line.now) line.now.horizon
        line.now.horizon tracks.trips.items) }
    ensures same { IfOk result (λ tracks. IsSameHistory line.now
        (played tracks.keys.items tracks.trips.items) (seen_history seen.now)) }
{
    Ok(Tracks {
        keys: tracks_of(alloc, line, &seen.keys)?,
        trips: tracks_of(alloc, line, &seen.trips)?,
    })
}

// The tracks of waves, one of each terminal.
fn tracks_of(alloc: Global, line: &Line, waves: &[Runs]) -> Result<Vec<Track<Level>>, Memory>
    requires waves { AreWaves (terminal_count line.now) line.now.horizon waves.now }
    ensures sent { IfOk result (λ tracks. AreSent (terminal_count line.now) line.now.horizon
        line.now.horizon tracks.items) }
    ensures same { IfOk result (λ tracks. AreAsSeen line.now tracks.items waves.now) }
{
    let mut tracks = Vec::new(alloc);
    for k in 0..line.terminals.len() {
        tracks.push(track_of(alloc, nth(waves, k as u32))?)?;
    }
    Ok(tracks)
}

// The track that is on where the wave must be, stretch by stretch.
fn track_of(alloc: Global, wave: &Runs) -> Result<Track<Level>, Memory>
    ensures long { IfOk result (λ track. HasKeys (length wave.now) (length wave.now) 0 track) }
    ensures same { IfOk result (λ track. IsAsSeen track wave.now) }
{
    let mut track = Track::new(alloc, wave.len())?;
    let mut runs = wave.cursor();
    'stretches: while track.len() < wave.len() {
        let t = track.len();
        let seen = runs.stretch(t);
        track.push(Level::known(seen.level.must(0)), seen.end - t);
    }
    Ok(track)
}
