//! Putting each source of a map beside the files that it is read from.

ghost use Rattle.std.specs.Prelude.{◌≡◌, ◌≤◌, ◌<◌, ◌++◌, IfOk, OnOk, map, length};
ghost use Rattle.file_records.specs.{map.Recorders.recorder_values, map.Sources.source_values};
ghost use Rattle.file_records.specs.tracks.Tracks.{placed_values, bytes_values, placed_at, placed_from};
ghost use Rattle.file_records.specs.tracks.Tracks.{ticks_of};

use crate::map::{Recorder, Source};
use crate::tracks::placed::{Placed, RecordBytes};
use file_comtrade::{Files, Ticks};
use model_line::{Line, Memory};
use std::alloc::Global;

// A source of recorder i.
fn placed_at<'a>(
    line: &Line,
    i: u32,
    recorder: &Recorder,
    bytes: RecordBytes<'a>,
    source: &'a Source,
) -> Placed<'a>
    ensures { placed_values result ≡ placed_at line.now i (recorder_values recorder.now)
        (bytes_values bytes.entry) (source_values source.now) }
{
    let ticks = Ticks {
        start: recorder.start,
        tick: u64::from(line.tick_us) * 1000,
        count: line.horizon,
    };
    let files = Files {
        dates: recorder.dates,
        config: bytes.config,
        samples: bytes.samples,
    };
    Placed {
        recorder: i,
        files,
        ticks,
        source,
    }
}

// Adds the sources of recorder i.
fn push_recorder<'a>(
    line: &Line,
    i: u32,
    recorder: &'a Recorder,
    bytes: RecordBytes<'a>,
    placed: &mut Vec<Placed<'a>>,
) -> Result<(), Memory>
    ensures { OnOk result (map placed_values placed.new.items ≡ map placed_values placed.old.items
        ++ map (placed_at line.now i (recorder_values recorder.now) (bytes_values bytes.entry))
        (map source_values recorder.now.signals.sources.items)) }
{
    for source in &recorder.signals.sources {
        placed.push(placed_at(line, i, recorder, bytes, source))?;
    }
    Ok(())
}

/// The sources of recorders, in the order of the map, each with the files of its recorder and the
/// line's ticks in its clock.
pub fn place<'a>(
    alloc: Global,
    line: &Line,
    recorders: &'a [Recorder],
    files: &[RecordBytes<'a>],
) -> Result<Vec<Placed<'a>>, Memory>
    requires files { length files.now ≡ length recorders.now }
    requires few { length recorders.now ≤ 8 }
    ensures { IfOk result (λ v. map placed_values v.items
        ≡ placed_from line.now 0 (map recorder_values recorders.now)
        (map bytes_values files.now)) }
{
    let mut placed = Vec::new(alloc);
    for i in 0..recorders.len() {
        push_recorder(line, i as u32, &recorders[i], files[i], &mut placed)?;
    }
    Ok(placed)
}
