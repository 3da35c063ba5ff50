//! What each source of a map tells, tick by tick.

ghost use Rattle.std.specs.Prelude.{◌≡◌, IfOk, MatchResult, map, not};
ghost use Rattle.base_memory.specs.Gives.{OfFault};
ghost use Rattle.file_records.specs.tracks.Tracks.{placed_values, track_values, turned, Grows, IsTrack};
ghost use Rattle.file_records.specs.tracks.Tracks.{AreTracks, FailsAt};
ghost use Rattle.file_records.specs.tracks.Channels.{IsRefused};

use crate::map::Signal;
use crate::tracks::channel::channel_levels;
use crate::tracks::placed::Placed;
use crate::tracks::samples::Sampled;
use base_memory::{Memory, Stopped};
use file_comtrade::RecordFault;
use std::alloc::Global;

/// The levels of a signal that a source tells, one for each tick, and what its samples are beside that.
#[derive(Drop)]
pub struct Track {
    pub signal: Signal,
    pub levels: Vec<bool>,
    pub sampled: Sampled,
}

/// The place of the first source that cannot be read, and why.
#[derive(Clone, Copy, Drop)]
pub struct TrackFault {
    pub place: usize,
    pub why: RecordFault,
}

// The other level of each.
fn others(alloc: Global, levels: &[bool]) -> Result<Vec<bool>, Memory>
    ensures { IfOk result (λ v. v.items ≡ map not levels.now) }
{
    let mut others = Vec::new(alloc);
    for level in levels {
        others.push(!*level)?;
    }
    Ok(others)
}

// The other level of each, where the source is inverted.
fn turned(alloc: Global, inverted: bool, levels: Vec<bool>) -> Result<Vec<bool>, Memory>
    ensures { IfOk result (λ v. v.items ≡ turned inverted levels.items) }
{
    if inverted {
        others(alloc, &levels)
    } else {
        Ok(levels)
    }
}

// The track of a source.
fn read_track(alloc: Global, placed: &Placed) -> Result<Track, Stopped<RecordFault>>
    ensures { MatchResult result
        (λ t. IsTrack (placed_values placed.now) (track_values t))
        (OfFault (IsRefused (placed_values placed.now).files
        (placed_values placed.now).source.channel placed.now.ticks)) }
{
    let source = placed.source;
    let told = channel_levels(alloc, placed.files, &source.channel, placed.ticks)?;
    let levels = turned(alloc, source.inverted, told.at_ticks)?;
    Ok(Track {
        signal: source.signal,
        levels,
        sampled: told.sampled,
    })
}

// Adds the track of a source.
fn push_track(
    alloc: Global,
    placed: &Placed,
    tracks: &mut Vec<Track>,
) -> Result<(), Stopped<RecordFault>>
    ensures { MatchResult result
        (λ _. Grows (placed_values placed.now) (map track_values tracks.old.items)
        (map track_values tracks.new.items))
        (OfFault (IsRefused (placed_values placed.now).files
        (placed_values placed.now).source.channel placed.now.ticks)) }
{
    let track = read_track(alloc, placed)?;
    tracks.push(track)?;
    Ok(())
}

/// The tracks of the sources, one for each, in their order.
pub fn read_tracks(alloc: Global, placed: &[Placed]) -> Result<Vec<Track>, Stopped<TrackFault>>
    ensures { MatchResult result
        (λ v. AreTracks (map placed_values placed.now) (map track_values v.items))
        (OfFault (λ fault. FailsAt (map placed_values placed.now) fault.place fault.why)) }
{
    let mut tracks = Vec::new(alloc);
    for i in 0..placed.len() {
        match push_track(alloc, &placed[i], &mut tracks) {
            Ok(()) => {}
            Err(Stopped::Fault(why)) => {
                return Err(Stopped::Fault(TrackFault { place: i, why }));
            }
            Err(Stopped::Memory) => return Err(Stopped::Memory),
        }
    }
    Ok(tracks)
}
