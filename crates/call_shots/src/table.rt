//! The table of shots.

ghost use Rattle.std.specs.Prelude.{◌≡◌, ◌<◌, ◌++◌, length, IfOk, OnOk};
ghost use Rattle.csv.specs.Writing.{row_text, default_writer};
ghost use Rattle.call_verdicts.specs.Records.{trip_text as text_of_trip};
ghost use Rattle.call_shots.specs.Rows.{AreRows};
ghost use Rattle.call_shots.specs.Table.{deadline_text as text_of_deadline, shot_record};
ghost use Rattle.call_shots.specs.Table.{shots_header, shots_text};

use crate::rows::Row;
use crate::window::Window;
use base_records::push_record;
use base_text::lines::push_ticks;
use call_verdicts::{
    Cases, Finding, answer_word, fails_for_word, fault_name, number_in, number_words, swept_text,
    trip_text,
};
use file_study::sweeps::place_of_script;
use itoa::Buffer;
use model_line::{Kind, Memory, kind_word, name_of_terminal};
use std::alloc::Global;

/// The table: a header, and a record for each row.
pub fn table_text(
    alloc: Global,
    cases: &Cases,
    shots: &[Finding],
    rows: &[Row],
) -> Result<Vec<u8>, Memory>
    requires { AreRows cases.now.compiled.line.now cases.now.scripts.now shots.now rows.now }
    ensures { IfOk result (λ text. text.items ≡ shots_text cases.now.compiled.line.now
        cases.now.scripts.now cases.now.groups.now rows.now) }
{
    let mut text = Vec::new(alloc);
    push_header(alloc, &mut text)?;
    for one in rows {
        push_row(alloc, &mut text, cases, one)?;
    }
    Ok(text)
}

fn push_header(alloc: Global, text: &mut Vec<u8>) -> Result<(), Memory>
    ensures { OnOk result (text.new.items
        ≡ text.old.items ++ row_text default_writer shots_header) }
{
    push_record(
        alloc,
        text,
        &[
            b"shot",
            b"fault",
            b"at",
            b"kind",
            b"deadline_ms",
            b"obligation",
            b"fails_for",
            b"place",
            b"script",
            b"swept_ms",
            b"terminal",
            b"key_from_ms",
            b"key_by_ms",
            b"trip_from_ms",
            b"trip_by_ms",
        ],
    )
}

// Appends the record of a row.
#[tactic(auto, unfolding(crate::specs::Table::shot_record))]
fn push_row<'a>(
    alloc: Global,
    text: &mut Vec<u8>,
    cases: &Cases<'a>,
    row: &Row,
) -> Result<(), Memory>
    requires { row.now.found.script < length cases.now.scripts.now }
    ensures { OnOk result (text.new.items ≡ text.old.items ++ row_text default_writer
        (shot_record cases.now.compiled.line.now cases.now.scripts.now cases.now.groups.now
        row.now)) }
{
    let line = cases.compiled.line;
    let script = &cases.scripts[row.found.script as usize];
    let (name, kind, deadline) = (script.name, script.kind, script.deadline);
    let place = place_of_script(cases.groups, row.found.script as usize);
    let (mut number, mut digits) = (Buffer::new(), Buffer::new());
    let swept = swept_text(alloc, line.tick_us, place)?;
    let due = deadline_text(alloc, line.tick_us, kind, deadline)?;
    let told = told_of(alloc, line.tick_us, &row.window)?;
    let fault: &'a [u8] = fault_name(place);
    let at: &'a [u8] = name_of_terminal(line, row.found.terminal);
    let kind_said: &'a [u8] = kind_word(kind);
    let answer: &'a [u8] = answer_word(row.found.standing);
    let fails_for: &'a [u8] = fails_for_word(row.found.standing);
    let terminal: &'a [u8] = name_of_terminal(line, row.terminal);
    push_record(
        alloc,
        text,
        &[
            number.format(row.number).as_bytes(),
            fault,
            at,
            kind_said,
            due.as_slice(),
            answer,
            fails_for,
            number_words(&mut digits, number_in(place)),
            name.bytes(),
            swept.as_slice(),
            terminal,
            told.key_from.as_slice(),
            told.key_by.as_slice(),
            told.trip_from.as_slice(),
            told.trip_by.as_slice(),
        ],
    )
}

// The ticks of a window in milliseconds.
#[derive(Drop)]
struct WindowText {
    key_from: Vec<u8>,
    key_by: Vec<u8>,
    trip_from: Vec<u8>,
    trip_by: Vec<u8>,
}

fn told_of(alloc: Global, tick_us: u32, window: &Window) -> Result<WindowText, Memory>
    ensures key_from { IfOk result (λ t. t.key_from.items
        ≡ text_of_trip tick_us window.now.key_may) }
    ensures key_by { IfOk result (λ t. t.key_by.items ≡ text_of_trip tick_us window.now.key_must) }
    ensures trip_from { IfOk result (λ t. t.trip_from.items
        ≡ text_of_trip tick_us window.now.trip_may) }
    ensures trip_by { IfOk result (λ t. t.trip_by.items
        ≡ text_of_trip tick_us window.now.trip_must) }
{
    let key_from = trip_text(alloc, tick_us, window.key_may)?;
    let key_by = trip_text(alloc, tick_us, window.key_must)?;
    let trip_from = trip_text(alloc, tick_us, window.trip_may)?;
    let trip_by = trip_text(alloc, tick_us, window.trip_must)?;
    Ok(WindowText {
        key_from,
        key_by,
        trip_from,
        trip_by,
    })
}

// The deadline of an internal fault; nothing of an external one.
fn deadline_text(alloc: Global, tick_us: u32, kind: Kind, deadline: u32) -> Result<Vec<u8>, Memory>
    ensures { IfOk result (λ text. text.items ≡ text_of_deadline tick_us kind deadline) }
{
    let mut text = Vec::new(alloc);
    match kind {
        Kind::Internal => push_ticks(&mut text, tick_us, deadline)?,
        Kind::External => {}
    }
    Ok(text)
}
