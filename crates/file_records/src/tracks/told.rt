//! Whether each key and trip of a line is told.

ghost use Rattle.std.specs.Prelude.{◌≡◌, map};
ghost use Rattle.std.specs.List.{list_any};
ghost use Rattle.file_records.specs.map.Recorders.{recorder_values};
ghost use Rattle.file_records.specs.tracks.Levels.{is_told, same_signal};
ghost use Rattle.file_records.specs.tracks.Told.{untold_at, first_untold, first_from};

use crate::map::{Recorder, Signal};
use model_line::Line;

fn is_among(told: &[Signal], signal: Signal) -> bool
    ensures { result ≡ list_any (λ s. same_signal s signal) told.now }
{
    told.iter().any(|s| *s == signal)
}

fn any_told(recorders: &[Recorder], signal: Signal) -> bool
    ensures { result ≡ list_any (λ r. list_any (λ s. same_signal s signal) r.signals.told.items)
        recorders.now }
{
    recorders
        .iter()
        .any(|recorder| is_among(&recorder.signals.told, signal))
}

// Whether some recorder tells the signal.
fn is_told(recorders: &[Recorder], signal: Signal) -> bool
    ensures { result ≡ is_told (map recorder_values recorders.now) signal }
{
    any_told(recorders, signal)
}

// The key of a terminal, or its trip, if it isn't told.
fn untold_at(recorders: &[Recorder], k: u32) -> Option<Signal>
    ensures { result ≡ untold_at (map recorder_values recorders.now) k }
{
    if !is_told(recorders, Signal::Key(k)) {
        return Some(Signal::Key(k));
    }
    if !is_told(recorders, Signal::Trip(k)) {
        return Some(Signal::Trip(k));
    }
    None
}

/// The first key or trip of the line that no recorder tells: terminals in line order, the key before
/// the trip. A record file needs them all.
pub fn first_untold(line: &Line, recorders: &[Recorder]) -> Option<Signal>
    ensures { result ≡ first_untold line.now (map recorder_values recorders.now) }
{
    for k in 0..line.terminals.len() {
        if let Some(signal) = untold_at(recorders, k as u32) {
            return Some(signal);
        }
    }
    None
}
