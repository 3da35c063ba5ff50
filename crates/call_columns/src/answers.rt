//! What a table of answers comes to.

ghost use Rattle.std.specs.Prelude.{◌≡◌, ◌++◌, OnOk, map};
ghost use Rattle.csv.specs.Records.{fields_of};
ghost use Rattle.call_columns.specs.Answers.{counted as counted_in, counts_of as counts_in};
ghost use Rattle.call_columns.specs.Answers.{many as many_words, number_or_none, sentence, stretch};
ghost use Rattle.call_columns.specs.Answers.{place_named as place_of_name, source_of as source_in};
ghost use Rattle.call_columns.specs.Answers.{all_of as all_counted, stretch_in, sum_of, summary};
ghost use Rattle.call_columns.specs.Answers.{answers_of, number_words, words_of};
ghost use Rattle.call_columns.specs.Answers.{word_counted as word_counted_as};
ghost use Rattle.call_columns.specs.Fields.{field_of as text_at};
ghost use Rattle.base_text.specs.store.Number.{number_of};

use crate::column::field_of;
use base_memory::Memory;
use base_records::{is, is_nothing};
use base_text::pieces::push_pieces;
use base_text::store::number;
use csv::ByteRecord;
use itoa::Buffer;

/// How many obligations are held, fail and are open.
#[derive(Clone, Copy)]
pub struct Counts {
    pub held: u64,
    pub failing: u64,
    pub unsure: u64,
}

/// Where a table has its answers: as a word of each record, as three numbers, or nowhere.
#[derive(Clone, Copy)]
pub enum Source {
    Word(usize),
    Numbers(usize, usize, usize),
    Nothing,
}

/// Appends what a table comes to: how many obligations there are and what is answered, and where faults
/// are not held. Nothing of a table without answers.
pub fn push_summary(
    text: &mut Vec<u8>,
    header: &ByteRecord,
    rows: &[ByteRecord],
) -> Result<(), Memory>
    ensures { OnOk result (text.new.items
        ≡ text.old.items ++ summary (fields_of header.now) (map fields_of rows.now)) }
{
    push_sentence(text, counts_of(source_of(header), rows))?;
    for row in rows {
        push_stretch(text, header, row)?;
    }
    Ok(())
}

/// The first place at which this field stands in a header, if it does.
pub fn place_named(name: &[u8], header: &ByteRecord) -> Option<usize>
    ensures { result ≡ place_of_name name.now (fields_of header.now) }
{
    for place in 0..header.len() {
        if is(field_of(header, place), name) {
            return Some(place);
        }
    }
    None
}

fn source_of(header: &ByteRecord) -> Source
    ensures { result ≡ source_in (fields_of header.now) }
{
    if let Some(place) = place_named(b"answer", header) {
        return Source::Word(place);
    }
    match (
        place_named(b"held", header),
        place_named(b"fails", header),
        place_named(b"open", header),
    ) {
        (Some(held), Some(fails), Some(open)) => Source::Numbers(held, fails, open),
        _ => Source::Nothing,
    }
}

fn counts_of(source: Source, rows: &[ByteRecord]) -> Counts
    ensures { result ≡ counts_in source (map fields_of rows.now) }
{
    let mut counts = NONE;
    for row in rows {
        counts = with_counts(counts, counted(source, row));
    }
    counts
}

const NONE: Counts = Counts {
    held: 0,
    failing: 0,
    unsure: 0,
};

fn with_counts(before: Counts, more: Counts) -> Counts
    ensures { result ≡ sum_of before more }
{
    Counts {
        held: before.held.saturating_add(more.held),
        failing: before.failing.saturating_add(more.failing),
        unsure: before.unsure.saturating_add(more.unsure),
    }
}

// The obligations of a record.
fn counted(source: Source, row: &ByteRecord) -> Counts
    ensures { result ≡ counted_in source (fields_of row.now) }
{
    match source {
        Source::Word(place) => word_counted(field_of(row, place)),
        Source::Numbers(held, fails, open) => Counts {
            held: number_at(row, held),
            failing: number_at(row, fails),
            unsure: number_at(row, open),
        },
        Source::Nothing => NONE,
    }
}

fn word_counted(word: &[u8]) -> Counts
    ensures { result ≡ word_counted_as word.now }
{
    if is(word, b"held") {
        Counts { held: 1, ..NONE }
    } else if is(word, b"fails") {
        Counts { failing: 1, ..NONE }
    } else if is(word, b"open") {
        Counts { unsure: 1, ..NONE }
    } else {
        NONE
    }
}

fn number_at(row: &ByteRecord, place: usize) -> u64
    ensures { result ≡ number_or_none (number_of (text_at (fields_of row.now) place)) }
{
    match number(field_of(row, place)) {
        Some(value) => u64::from(value),
        None => 0,
    }
}

fn push_sentence(text: &mut Vec<u8>, counts: Counts) -> Result<(), Memory>
    ensures { OnOk result (text.new.items ≡ text.old.items ++ sentence counts) }
{
    if all_of(counts) == 0 {
        return Ok(());
    }
    push_words(text, counts)
}

fn all_of(counts: Counts) -> u64
    ensures { result ≡ all_counted counts }
{
    counts
        .held
        .saturating_add(counts.failing)
        .saturating_add(counts.unsure)
}

#[tactic(auto, unfolding(crate::specs::Answers::words_of))]
fn push_words(text: &mut Vec<u8>, counts: Counts) -> Result<(), Memory>
    ensures { OnOk result (text.new.items ≡ text.old.items ++ words_of counts) }
{
    let all = all_of(counts);
    text.extend_from_slice(b"\n")?;
    push_number(text, all, many(all))?;
    push_answers(text, counts)?;
    Ok(())
}

#[tactic(auto, unfolding(crate::specs::Answers::answers_of))]
fn push_answers(text: &mut Vec<u8>, counts: Counts) -> Result<(), Memory>
    ensures { OnOk result (text.new.items ≡ text.old.items ++ answers_of counts) }
{
    push_number(text, counts.held, b" held, ")?;
    push_number(text, counts.failing, b" failing, ")?;
    push_number(text, counts.unsure, b" open\n")?;
    Ok(())
}

#[tactic(auto, unfolding(crate::specs::Answers::number_words))]
fn push_number(text: &mut Vec<u8>, number: u64, words: &[u8]) -> Result<(), Memory>
    ensures { OnOk result (text.new.items ≡ text.old.items ++ number_words number words.now) }
{
    let mut digits = Buffer::new();
    text.extend_from_slice(digits.format(number).as_bytes())?;
    text.extend_from_slice(words)?;
    Ok(())
}

fn many(count: u64) -> &'static [u8]
    ensures { result.now ≡ many_words count }
{
    if count == 1 {
        b" obligation: "
    } else {
        b" obligations: "
    }
}

// Appends where a fault is not held at a terminal, if the table tells it.
fn push_stretch(text: &mut Vec<u8>, header: &ByteRecord, row: &ByteRecord) -> Result<(), Memory>
    ensures { OnOk result (text.new.items
        ≡ text.old.items ++ stretch_in (fields_of header.now) (fields_of row.now)) }
{
    let (Some(fault), Some(terminal), Some(times)) = (
        place_named(b"fault", header),
        place_named(b"terminal", header),
        place_named(b"not_held_ms", header),
    ) else {
        return Ok(());
    };
    push_times(
        text,
        field_of(row, fault),
        field_of(row, terminal),
        field_of(row, times),
    )
}

fn push_times(text: &mut Vec<u8>, fault: &[u8], terminal: &[u8], times: &[u8]) -> Result<(), Memory>
    ensures { OnOk result (text.new.items
        ≡ text.old.items ++ stretch fault.now terminal.now times.now) }
{
    if is_nothing(times) {
        return Ok(());
    }
    push_pieces(
        text,
        &[fault, b" at ", terminal, b": not held at ", times, b" ms\n"],
    )
}
