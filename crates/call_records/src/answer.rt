//! What is answered over all that was read.

ghost use Rattle.std.specs.Prelude.{◌≡◌, ◌≤◌, IfOk, IsTrue, Ok, length, map as image, slice_get};
ghost use Rattle.model_line.specs.{Fits.deadline_fits, PlainNames.is_plain_name};
ghost use Rattle.file_records.specs.map.Maps.{map_values};
ghost use Rattle.file_records.specs.tracks.Tracks.{bytes_values, placed_values, track_values};
ghost use Rattle.call_records.specs.Answers.{answer_of, over_records as all_said, over_work};
ghost use Rattle.call_records.specs.Request.{asked_values};
ghost use Rattle.call_records.specs.{Parts.bytes_in, Read.Gives, Read.TellsAt, Read.TellsOf};
ghost use Rattle.call_records.specs.Read.{files_values, record_values};

use crate::asked::Asked;
use crate::fetch::RecorderFiles;
use crate::halt::Halt;
use crate::parts::{RecordParts, all_parts};
use crate::record_refusal::record_halt;
use crate::refusal::no_script_halt;
use base_memory::Stopped;
use call_ask::RecordsWork;
use file_comtrade::RecordFault;
use file_records::map::Map;
use file_records::recorded::{record_text, scripts_text};
use file_records::tracks::{
    Placed, RecordBytes, Sources, Track, TrackFault, place, read_tracks, sources_text,
};
use model_line::{Line, Memory};
use std::alloc::Global;

// The bytes of the recorders' records.
fn bytes_of<'a>(alloc: Global, records: &[RecordParts<'a>]) -> Result<Vec<RecordBytes<'a>>, Memory>
    ensures { IfOk result (λ v. image bytes_values v.items
        ≡ image (λ r. bytes_in (record_values r)) records.now) }
{
    let mut all = Vec::new(alloc);
    for own in records {
        all.push(RecordBytes {
            config: own.config.bytes,
            samples: own.samples.bytes,
        })?;
    }
    Ok(all)
}

// Why a source that tells nothing is refused.
fn source_halt(
    alloc: Global,
    asked: Asked<'_>,
    source: &Placed,
    records: &[RecordParts<'_>],
    why: RecordFault,
) -> Halt
    ensures { TellsOf (asked_values asked.entry) (slice_get (image record_values records.now)
        (placed_values source.now).recorder) (placed_values source.now) why result }
{
    match records.get(source.recorder as usize) {
        Some(own) => record_halt(alloc, asked, own, source, why),
        None => Halt::Memory,
    }
}

// Why the source at the fault's place is refused.
fn fault_halt(
    alloc: Global,
    asked: Asked<'_>,
    placed: &[Placed],
    records: &[RecordParts<'_>],
    fault: TrackFault,
) -> Halt
    ensures { TellsAt (asked_values asked.entry) (slice_get (image placed_values placed.now) fault.place)
        (image record_values records.now) fault.why result }
{
    match placed.get(fault.place) {
        Some(source) => source_halt(alloc, asked, source, records, fault.why),
        None => Halt::Memory,
    }
}

// The text over what the tracks tell.
fn text_over(
    alloc: Global,
    asked: Asked<'_>,
    line: &Line,
    map: &Map,
    placed: &[Placed],
    tracks: &[Track],
) -> Result<Vec<u8>, Halt>
    requires plain { IsTrue (is_plain_name map.now.script) }
    requires deadline { IsTrue (deadline_fits line.now.horizon map.now.kind map.now.deadline) }
    ensures { Gives (over_work (asked_values asked.entry) line.now (map_values map.now) (image placed_values placed.now)
        (image track_values tracks.now)) result }
{
    match asked.work {
        RecordsWork::Scripts => match scripts_text(alloc, line, map, tracks) {
            Ok(text) => Ok(text),
            Err(Stopped::Fault(why)) => Err(no_script_halt(alloc, asked, why)),
            Err(Stopped::Memory) => Err(Halt::Memory),
        },
        RecordsWork::Record => {
            let text = record_text(alloc, line, map.script.bytes(), tracks)?;
            Ok(text)
        }
        RecordsWork::Show => {
            let table = Sources {
                line,
                recorders: map.recorders.as_slice(),
                placed,
                tracks,
            };
            let text = sources_text(alloc, &table)?;
            Ok(text)
        }
    }
}

// The text over the map's recorders and their records.
fn over_records(
    alloc: Global,
    asked: Asked<'_>,
    line: &Line,
    map: &Map,
    records: &[RecordParts<'_>],
) -> Result<Vec<u8>, Halt>
    requires many { length records.now ≡ length map.now.recorders.items }
    requires few { length map.now.recorders.items ≤ 8 }
    requires plain { IsTrue (is_plain_name map.now.script) }
    requires deadline { IsTrue (deadline_fits line.now.horizon map.now.kind map.now.deadline) }
    ensures { Gives (all_said (asked_values asked.entry) line.now (map_values map.now)
        (Ok (image record_values records.now))) result }
{
    let bytes = bytes_of(alloc, records)?;
    let placed = place(alloc, line, map.recorders.as_slice(), bytes.as_slice())?;
    match read_tracks(alloc, placed.as_slice()) {
        Ok(tracks) => text_over(
            alloc,
            asked,
            line,
            map,
            placed.as_slice(),
            tracks.as_slice(),
        ),
        Err(Stopped::Fault(fault)) => Err(fault_halt(
            alloc,
            asked,
            placed.as_slice(),
            records,
            fault,
        )),
        Err(Stopped::Memory) => Err(Halt::Memory),
    }
}

/// The text over the map's recorders and the bytes of their files.
pub fn answer(
    alloc: Global,
    asked: Asked<'_>,
    line: &Line,
    map: &Map,
    files: &[RecorderFiles],
) -> Result<Vec<u8>, Halt>
    requires many { length files.now ≡ length map.now.recorders.items }
    requires few { length map.now.recorders.items ≤ 8 }
    requires plain { IsTrue (is_plain_name map.now.script) }
    requires deadline { IsTrue (deadline_fits line.now.horizon map.now.kind map.now.deadline) }
    ensures { Gives (answer_of (asked_values asked.entry) line.now (map_values map.now) (image files_values files.now))
        result }
{
    let records = all_parts(alloc, files)?;
    over_records(alloc, asked, line, map, records.as_slice())
}
