//! What is seen of a part.

ghost use Rattle.std.specs.Prelude.{◌≤◌};

use crate::explain::question::Question;
use crate::explain::recorded::Recorded;
use run_changes::changes::Tracks;
use run_signal::{Signal, Tern, Track};

/// Whether the interval rules over a part exclude the record, and at how many ticks they leave it open
/// whether a signal has the level that the record keeps around the tick.
#[derive(Clone, Copy)]
pub struct Outlook {
    pub out: bool,
    pub open: u32,
}

/// What is seen of the part that gave these tracks.
pub fn outlook_of(q: &Question, tracks: &Tracks<Tern>) -> Outlook {
    let mut seen = Outlook {
        out: false,
        open: 0,
    };
    note_all(&q.keys, &tracks.keys, &mut seen);
    note_all(&q.trips, &tracks.trips, &mut seen);
    seen
}

fn note_all(all: &[Recorded], tracks: &[Track<Tern>], seen: &mut Outlook) {
    for k in 0..all.len().min(tracks.len()) {
        note_track(&all[k], &tracks[k], seen);
    }
}

// Notes a track, stretch by stretch.
fn note_track(recorded: &Recorded, track: &Track<Tern>, seen: &mut Outlook) {
    let mut t = 0;
    'stretches: while t < track.len() {
        let end = track.stays_until(t);
        let kept = kept_in(&recorded.stays, t, end);
        note_stretch(track.at(t), kept, seen);
        t = end;
    }
}

// At how many ticks of a stretch the record keeps the signal on, and at how many off.
#[derive(Clone, Copy)]
struct Kept {
    on: u32,
    off: u32,
}

fn kept_in(stays: &[Option<bool>], from: u32, end: u32) -> Kept
    requires { end ≤ 4000 }
{
    let mut on: u32 = 0;
    let mut off: u32 = 0;
    for t in from..end {
        match stays.get(t as usize) {
            Some(Some(true)) => on = on.saturating_add(1),
            Some(Some(false)) => off = off.saturating_add(1),
            _ => {}
        }
    }
    Kept { on, off }
}

// Notes a stretch of this value.
fn note_stretch(value: Tern, kept: Kept, seen: &mut Outlook) {
    match value {
        Tern::Zero => seen.out = seen.out || kept.on > 0,
        Tern::One => seen.out = seen.out || kept.off > 0,
        Tern::Unknown => {
            let ticks = kept.on.saturating_add(kept.off);
            seen.open = seen.open.saturating_add(ticks);
        }
    }
}
