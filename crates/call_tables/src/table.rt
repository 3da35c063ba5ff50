//! The table of what is known.

ghost use Rattle.std.specs.Prelude.{◌≡◌, ◌<◌, ◌++◌, length, IfOk, OnOk};
ghost use Rattle.csv.specs.Writing.{row_text, default_writer};
ghost use Rattle.model_line.specs.Parameters.{terminal_count};
ghost use Rattle.call_tables.specs.Rows.{AreRows};
ghost use Rattle.call_tables.specs.Table.{answer_word as word_of_answer};
ghost use Rattle.call_tables.specs.Table.{row_record, table_text as table_text_of};
ghost use Rattle.call_tables.specs.Table.{fails_for as fails_for_of, timing_name};

use crate::row::Row;
use base_records::push_record;
use call_answer::Study;
use judge_settle::settle::{Answer, by_word, choices_word};
use model_line::Memory;
use std::alloc::Global;

/// The table: a header, and a record for each obligation.
pub fn table_text(alloc: Global, study: &Study, rows: &[Row]) -> Result<Vec<u8>, Memory>
    requires { AreRows study.now.line study.now.scripts.items rows.now }
    ensures { IfOk result (λ text. text.items
        ≡ table_text_of study.now.line study.now.scripts.items rows.now) }
{
    let mut text = Vec::new(alloc);
    push_record(
        alloc,
        &mut text,
        &[
            b"script",
            b"terminal",
            b"answer",
            b"fails_for",
            b"by",
            b"timing",
        ],
    )?;
    for row in rows {
        push_row(alloc, &mut text, study, row)?;
    }
    Ok(text)
}

// Appends the record of an obligation.
fn push_row(alloc: Global, text: &mut Vec<u8>, study: &Study, row: &Row) -> Result<(), Memory>
    requires script { row.now.script < length study.now.scripts.items }
    requires terminal { row.now.terminal < terminal_count study.now.line }
    ensures { OnOk result (text.new.items ≡ text.old.items
        ++ row_text default_writer
        (row_record study.now.line study.now.scripts.items row.now)) }
{
    let script = study.scripts[row.script as usize].name;
    let terminal = study.line.terminals[row.terminal as usize].name;
    let answer = &row.settled.answer;
    push_record(
        alloc,
        text,
        &[
            script.bytes(),
            terminal.bytes(),
            answer_word(answer),
            fails_for(answer),
            by_word(row.settled.by),
            timing_of(answer, terminal.bytes()),
        ],
    )
}

/// `held`, `fails` or `open`.
fn answer_word(answer: &Answer) -> &'static [u8]
    ensures { result.now ≡ word_of_answer answer.now }
{
    match answer {
        Answer::Held(_) => b"held",
        Answer::Fails { .. } => b"fails",
        Answer::Open(_) => b"open",
    }
}

// For which choices it fails.
fn fails_for(answer: &Answer) -> &'static [u8]
    ensures { result.now ≡ fails_for_of answer.now }
{
    match answer {
        Answer::Fails { every, .. } => choices_word(*every),
        Answer::Held(_) | Answer::Open(_) => b"",
    }
}

// The name of the failing timing, that of its terminal; none where there is no such timing.
fn timing_of<'a>(answer: &Answer, terminal: &'a [u8]) -> &'a [u8]
    ensures { result.now ≡ timing_name answer.now terminal.now }
{
    match answer {
        Answer::Fails { .. } => terminal,
        Answer::Held(_) | Answer::Open(_) => b"",
    }
}
