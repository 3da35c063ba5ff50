//! The tracks of a run as waves.

ghost use Rattle.std.specs.Prelude.{◌≡◌, ◌≤◌, ℕ, length, slice_get, IfOk};
ghost use Rattle.run_signal.specs.declared.tern.Tern.{Tern};
ghost use Rattle.run_signal.specs.SentKeys.{SentKeys};
ghost use Rattle.run_waves.specs.waves.Waves.{wave_at, IsWaveOf};
ghost use Rattle.judge_verdict.specs.verdict.PairWavesOf.{AreWavesOf, track_pairs};

use model_line::Memory;
use run_signal::{Tern, Track};
use run_waves::waves::{Runs, waves_grow};
use std::alloc::Global;

/// The waves of these tracks, in their order.
pub fn track_waves(alloc: Global, tracks: &[Track<Tern>], horizon: u32) -> Result<Vec<Runs>, Memory>
    requires long { (k : ℕ) (track : SentKeys Tern) → slice_get tracks.now k ≡ Some track →
        length track.keys ≡ horizon }
    requires short { horizon ≤ 4000 }
    ensures { IfOk result (λ waves.
        AreWavesOf (length tracks.now) horizon (track_pairs tracks.now) waves.items) }
{
    let mut waves = Vec::with_capacity(alloc, tracks.len())?;
    for track in tracks {
        let wave = track_wave(alloc, track)?;
        waves.push(wave)?;
    }
    Ok(waves)
}

// The wave of a track, a run for each of its stretches.
fn track_wave(alloc: Global, track: &Track<Tern>) -> Result<Runs, Memory>
    requires { length track.now.keys ≤ 4000 }
    ensures { IfOk result (λ wave.
        IsWaveOf wave (length track.now.keys) (wave_at track.now.keys)) }
{
    waves_grow();
    let mut wave = Runs::new(alloc);
    'stretches: while wave.len() < track.len() {
        let t = wave.len();
        wave.push(track.at(t), track.stays_until(t) - t)?;
    }
    Ok(wave)
}
