//! The table of changes.

ghost use Rattle.std.specs.Prelude.{◌≡◌, ◌++◌, IfOk, OnOk};
ghost use Rattle.csv.specs.Writing.{row_text, default_writer};
ghost use Rattle.judge_match.specs.matching.MatchText.{signal_word as word_of_signal};
ghost use Rattle.run_changes.specs.rows.PlayRows.{level_word as word_of_level};
ghost use Rattle.call_work.specs.explain.Table.{change_record, changes_text as text_of_changes};
ghost use Rattle.call_work.specs.explain.Table.{header_record};

use base_records::push_record;
use itoa::Buffer;
use judge_match::explain::Paired;
use model_line::{Line, Memory, name_of_terminal};
use std::alloc::Global;

/// The table: a header, and a record for each change.
pub fn changes_text(alloc: Global, line: &Line, rows: &[Paired]) -> Result<Vec<u8>, Memory>
    ensures { IfOk result (λ text. text.items ≡ text_of_changes line.now rows.now) }
{
    let mut text = Vec::new(alloc);
    push_header(alloc, &mut text)?;
    for row in rows {
        push_change(alloc, &mut text, line, row)?;
    }
    Ok(text)
}

fn push_header(alloc: Global, text: &mut Vec<u8>) -> Result<(), Memory>
    ensures { OnOk result (text.new.items
        ≡ text.old.items ++ row_text default_writer header_record) }
{
    push_record(
        alloc,
        text,
        &[
            b"terminal",
            b"signal",
            b"level",
            b"recorded",
            b"played",
            b"difference",
        ],
    )
}

// Appends the record of a change.
fn push_change<'a>(
    alloc: Global,
    text: &mut Vec<u8>,
    line: &'a Line,
    row: &Paired,
) -> Result<(), Memory>
    ensures { OnOk result (text.new.items
        ≡ text.old.items ++ row_text default_writer (change_record line.now row.now)) }
{
    let (mut recorded, mut played, mut apart) = (Buffer::new(), Buffer::new(), Buffer::new());
    let apart = apart.format(row.played as i64 - row.recorded as i64);
    let terminal: &'a [u8] = name_of_terminal(line, row.terminal);
    let signal: &'a [u8] = signal_word(row.trip);
    let level: &'a [u8] = level_word(row.level);
    push_record(
        alloc,
        text,
        &[
            terminal,
            signal,
            level,
            recorded.format(row.recorded).as_bytes(),
            played.format(row.played).as_bytes(),
            apart.as_bytes(),
        ],
    )
}

fn signal_word(trip: bool) -> &'static [u8]
    ensures { result.now ≡ word_of_signal trip }
{
    if trip { b"trip" } else { b"key" }
}

fn level_word(level: bool) -> &'static [u8]
    ensures { result.now ≡ word_of_level level }
{
    if level { b"1" } else { b"0" }
}
