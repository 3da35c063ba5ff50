//! The table.

ghost use Rattle.std.specs.Prelude.{[], ◌∷◌, ◌≡◌, ◌++◌, IfOk, OnOk, Some, map, slice_get};
ghost use Rattle.csv.specs.Writing.{default_writer, row_text};
ghost use Rattle.file_records.specs.map.Recorders.{recorder_values};
ghost use Rattle.file_tables.specs.script.Printed.{records_text};
ghost use Rattle.file_records.specs.tracks.Tracks.{placed_values, track_values};
ghost use Rattle.file_records.specs.tracks.Fields.{course_fields, sampled_fields as sampled_said};
ghost use Rattle.file_records.specs.tracks.Rows.{header_record, record_at, record_of, source_record};
ghost use Rattle.file_records.specs.tracks.Rows.{sources_text as text_of_sources};

use crate::map::Recorder;
use crate::tracks::changes::{changes_of, level_at};
use crate::tracks::fields::{
    SampledFields, SignalFields, TickFields, channel_text, config_name, sampled_fields,
    signal_fields, tick_fields,
};
use crate::tracks::placed::Placed;
use crate::tracks::track::Track;
use base_records::push_record;
use itoa::Buffer;
use model_line::{Line, Memory};
use run_changes::rows::level_word;
use std::alloc::Global;

/// A line, the recorders of a map, its sources, and the track of each source in their order.
#[derive(Clone, Copy)]
pub struct Sources<'a> {
    pub line: &'a Line,
    pub recorders: &'a [Recorder],
    pub placed: &'a [Placed<'a>],
    pub tracks: &'a [Track],
}

// The texts of how a source changes, and of its samples.
#[derive(Drop)]
struct Course {
    first_level: Vec<u8>,
    changes: Vec<u8>,
    first: TickFields,
    sampled: SampledFields,
}

// The texts of a record.
#[derive(Drop)]
struct Row {
    recorder: Vec<u8>,
    signal: SignalFields,
    channel: Vec<u8>,
    inverted: Vec<u8>,
    course: Course,
}

fn push_header(alloc: Global, text: &mut Vec<u8>) -> Result<(), Memory>
    ensures { OnOk result (text.new.items
        ≡ text.old.items ++ row_text default_writer header_record) }
{
    push_record(
        alloc,
        text,
        &[
            b"recorder",
            b"terminal",
            b"signal",
            b"from",
            b"channel",
            b"inverted",
            b"first_level",
            b"changes",
            b"first_change_tick",
            b"first_change_ms",
            b"first_sample_ms",
            b"last_sample_ms",
            b"unseen",
        ],
    )
}

fn push_row(alloc: Global, text: &mut Vec<u8>, row: &Row) -> Result<(), Memory>
    ensures { OnOk result (text.new.items ≡ text.old.items ++ row_text default_writer
        (row.now.recorder.items ∷ row.now.signal.terminal.items ∷ row.now.signal.signal.items
        ∷ row.now.signal.from.items ∷ row.now.channel.items ∷ row.now.inverted.items
        ∷ row.now.course.first_level.items ∷ row.now.course.changes.items
        ∷ row.now.course.first.tick.items ∷ row.now.course.first.time.items
        ∷ row.now.course.sampled.first.items ∷ row.now.course.sampled.last.items
        ∷ row.now.course.sampled.unseen.items ∷ [])) }
{
    let course = &row.course;
    push_record(
        alloc,
        text,
        &[
            row.recorder.as_slice(),
            row.signal.terminal.as_slice(),
            row.signal.signal.as_slice(),
            row.signal.from.as_slice(),
            row.channel.as_slice(),
            row.inverted.as_slice(),
            course.first_level.as_slice(),
            course.changes.as_slice(),
            course.first.tick.as_slice(),
            course.first.time.as_slice(),
            course.sampled.first.as_slice(),
            course.sampled.last.as_slice(),
            course.sampled.unseen.as_slice(),
        ],
    )
}

// The texts of how a source changes, and of its samples.
fn course_of(alloc: Global, line: &Line, track: &Track) -> Result<Course, Memory>
    ensures { IfOk result (λ f. f.first_level.items ∷ f.changes.items ∷ f.first.tick.items
        ∷ f.first.time.items ∷ f.sampled.first.items ∷ f.sampled.last.items
        ∷ f.sampled.unseen.items ∷ []
        ≡ course_fields line.now (track_values track.now)
        ++ sampled_said line.now (track_values track.now)) }
{
    let changes = changes_of(alloc, line, track)?;
    Ok(Course {
        first_level: Vec::from_slice(alloc, level_word(level_at(track, 0)))?,
        changes: Vec::from_slice(alloc, Buffer::new().format(changes.len()).as_bytes())?,
        first: tick_fields(alloc, line, changes.get(0).copied())?,
        sampled: sampled_fields(alloc, track.sampled, changes.len() as u64)?,
    })
}

// The texts of the record of a source.
fn row_of(
    alloc: Global,
    table: &Sources<'_>,
    placed: &Placed<'_>,
    track: &Track,
) -> Result<Row, Memory>
    ensures { IfOk result (λ row. row.recorder.items ∷ row.signal.terminal.items
        ∷ row.signal.signal.items ∷ row.signal.from.items ∷ row.channel.items ∷ row.inverted.items
        ∷ row.course.first_level.items ∷ row.course.changes.items ∷ row.course.first.tick.items
        ∷ row.course.first.time.items ∷ row.course.sampled.first.items
        ∷ row.course.sampled.last.items ∷ row.course.sampled.unseen.items ∷ []
        ≡ source_record table.now.line.now (map recorder_values table.now.recorders.now)
        (placed_values placed.now) (track_values track.now)) }
{
    let source = placed.source;
    let course = course_of(alloc, table.line, track)?;
    Ok(Row {
        recorder: Vec::from_slice(alloc, config_name(table.recorders, placed.recorder))?,
        signal: signal_fields(alloc, table.line, source.signal)?,
        channel: channel_text(alloc, &source.channel)?,
        inverted: Vec::from_slice(alloc, level_word(source.inverted))?,
        course,
    })
}

// Appends the record of a source.
fn push_source(
    alloc: Global,
    text: &mut Vec<u8>,
    table: &Sources<'_>,
    placed: &Placed<'_>,
    track: &Track,
) -> Result<(), Memory>
    ensures { OnOk result (text.new.items ≡ text.old.items ++ row_text default_writer
        (source_record table.now.line.now (map recorder_values table.now.recorders.now)
        (placed_values placed.now) (track_values track.now))) }
{
    let row = row_of(alloc, table, placed, track)?;
    push_row(alloc, text, &row)
}

// Appends the record of a source with the track at a place, if there is one.
fn push_told(
    alloc: Global,
    text: &mut Vec<u8>,
    table: &Sources<'_>,
    placed: &Placed<'_>,
    i: usize,
) -> Result<(), Memory>
    ensures { OnOk result (text.new.items ≡ text.old.items ++ records_text
        (record_of table.now.line.now (map recorder_values table.now.recorders.now)
        (Some (placed_values placed.now)) (slice_get (map track_values table.now.tracks.now) i))) }
{
    match table.tracks.get(i) {
        Some(track) => push_source(alloc, text, table, placed, track),
        None => Ok(()),
    }
}

// Appends the record of the source at a place, if there is one.
fn push_at(alloc: Global, text: &mut Vec<u8>, table: &Sources<'_>, i: usize) -> Result<(), Memory>
    ensures { OnOk result (text.new.items ≡ text.old.items ++ records_text
        (record_at table.now.line.now (map recorder_values table.now.recorders.now)
        (map placed_values table.now.placed.now) (map track_values table.now.tracks.now) i)) }
{
    match table.placed.get(i) {
        Some(placed) => push_told(alloc, text, table, placed, i),
        None => Ok(()),
    }
}

/// The table: a header, and a record for each source that has a track, in the order of the map.
pub fn sources_text(alloc: Global, table: &Sources<'_>) -> Result<Vec<u8>, Memory>
    ensures { IfOk result (λ v. v.items
        ≡ text_of_sources table.now.line.now (map recorder_values table.now.recorders.now)
        (map placed_values table.now.placed.now) (map track_values table.now.tracks.now)) }
{
    let mut text = Vec::new(alloc);
    push_header(alloc, &mut text)?;
    for i in 0..table.placed.len() {
        push_at(alloc, &mut text, table, i)?;
    }
    Ok(text)
}
