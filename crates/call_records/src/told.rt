//! Lines that tell where in a record something is wrong.

ghost use Rattle.std.specs.Prelude.{◌≡◌, ◌++◌, ◌-◌, IfOk, OnOk, map};
ghost use Rattle.call_records.specs.{Halts.Tells, Read.part_values};
ghost use Rattle.call_records.specs.RecordFaults.{line_feed, place_line, place_said, said_words};
ghost use Rattle.call_records.specs.RecordFaults.{sample_said, sample_words, spot_line};

use crate::halt::Halt;
use crate::parts::Part;
use base_text::pieces::{push_pieces, text_of};
use call_refused::told::push_within;
use file_comtrade::column_in;
use itoa::Buffer;
use model_line::Memory;
use std::alloc::Global;

/// A place in a text: a line, the first having number 1, and the index of a field in it.
#[derive(Clone, Copy)]
pub struct Spot {
    pub line: usize,
    pub field: usize,
}

#[tactic(auto, unfolding(crate::specs::RecordFaults::place_said))]
fn push_place(text: &mut Vec<u8>, file: &[u8], line: u128, column: usize) -> Result<(), Memory>
    ensures { OnOk result (text.new.items ≡ text.old.items ++ place_said file.now line column) }
{
    let mut digits = Buffer::new();
    let line = digits.format(line).as_bytes();
    let mut more = Buffer::new();
    let column = more.format(column).as_bytes();
    push_within(text, file)?;
    push_pieces(text, &[b":", line, b":", column, b": "])
}

#[tactic(auto, unfolding(crate::specs::RecordFaults::line_feed))]
fn push_end(text: &mut Vec<u8>) -> Result<(), Memory>
    ensures { OnOk result (text.new.items ≡ text.old.items ++ line_feed) }
{
    push_pieces(text, &[b"\n"])
}

#[tactic(auto, unfolding(crate::specs::RecordFaults::sample_said))]
fn push_sample(text: &mut Vec<u8>, file: &[u8], n: usize) -> Result<(), Memory>
    ensures { OnOk result (text.new.items ≡ text.old.items ++ sample_said file.now n) }
{
    let mut digits = Buffer::new();
    let n = digits.format(n).as_bytes();
    push_within(text, file)?;
    push_pieces(text, &[b": sample ", n, b": "])
}

// Words, and the end of the line.
fn push_words(alloc: Global, text: &mut Vec<u8>, words: &[&[u8]]) -> Result<(), Memory>
    ensures { OnOk result (text.new.items ≡ text.old.items
        ++ said_words (map (λ piece. piece.now) words.now)) }
{
    push_within(text, text_of(alloc, words)?.as_slice())?;
    push_end(text)
}

fn place_text(
    alloc: Global,
    file: &[u8],
    line: u128,
    column: usize,
    words: &[&[u8]],
) -> Result<Vec<u8>, Memory>
    ensures { IfOk result (λ v. v.items
        ≡ place_line file.now line column (map (λ piece. piece.now) words.now)) }
{
    let mut text = Vec::new(alloc);
    push_place(&mut text, file, line, column)?;
    push_words(alloc, &mut text, words)?;
    Ok(text)
}

fn sample_text(alloc: Global, file: &[u8], n: usize, words: &[&[u8]]) -> Result<Vec<u8>, Memory>
    ensures { IfOk result (λ v. v.items
        ≡ sample_words file.now n (map (λ piece. piece.now) words.now)) }
{
    let mut text = Vec::new(alloc);
    push_sample(&mut text, file, n)?;
    push_words(alloc, &mut text, words)?;
    Ok(text)
}

/// These words of a place in a file.
pub fn at_place(alloc: Global, file: &[u8], line: u128, column: usize, words: &[&[u8]]) -> Halt
    ensures { Tells (place_line file.now line column (map (λ piece. piece.now) words.now)) result }
{
    match place_text(alloc, file, line, column, words) {
        Ok(line) => Halt::Refused(line),
        Err(_) => Halt::Memory,
    }
}

/// These words of a sample of this number in a file.
pub fn of_sample(alloc: Global, file: &[u8], n: usize, words: &[&[u8]]) -> Halt
    ensures { Tells (sample_words file.now n (map (λ piece. piece.now) words.now)) result }
{
    match sample_text(alloc, file, n, words) {
        Ok(line) => Halt::Refused(line),
        Err(_) => Halt::Memory,
    }
}

/// These words of a place in a part of a record.
pub fn at_spot(alloc: Global, part: &Part<'_>, spot: Spot, words: &[&[u8]]) -> Halt
    ensures { Tells (spot_line (part_values part.now) spot (map (λ piece. piece.now) words.now))
        result }
{
    let line = part.line as u128 + spot.line as u128;
    let column = column_in(part.bytes, spot.line.saturating_sub(1), spot.field);
    at_place(alloc, part.name, line, column, words)
}
