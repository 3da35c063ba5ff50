//! Whether a signal is on at a tick.

ghost use Rattle.std.specs.Prelude.{◌≡◌, map};
ghost use Rattle.std.specs.List.{list_any};
ghost use Rattle.file_records.specs.tracks.Tracks.{track_values};
ghost use Rattle.file_records.specs.tracks.Levels.{is_on, tells};

use crate::map::Signal;
use crate::tracks::track::Track;

fn tells(signal: Signal, t: u32, track: &Track) -> bool
    ensures { result ≡ tells signal t (track_values track.now) }
{
    track.signal == signal && track.levels.get(t as usize).copied().unwrap_or(false)
}

fn any_tells(tracks: &[Track], signal: Signal, t: u32) -> bool
    ensures { result ≡ list_any (λ x. tells signal t (track_values x)) tracks.now }
{
    tracks.iter().any(|track| tells(signal, t, track))
}

/// Whether a signal is on at a tick: one of its tracks is.
pub fn is_on(tracks: &[Track], signal: Signal, t: u32) -> bool
    ensures { result ≡ is_on (map track_values tracks.now) signal t }
{
    any_tells(tracks, signal, t)
}
