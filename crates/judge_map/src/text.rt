//! The settled cells of a map as CSV records.

ghost use Rattle.std.specs.Prelude.{◌≡◌, ◌≤◌, ◌<◌, ◌+◌, ◌*◌, ◌/◌, ◌%◌, ◌^◌, ◌++◌, OnOk, IfOk, IfSome, length};
ghost use Rattle.csv.specs.Writing.{row_text, default_writer};
ghost use Rattle.judge_margins.specs.map.Axes.{AreAxes, cell_count, least_at, rows_of};
ghost use Rattle.judge_map.specs.Cells.{AreSettledCells};
ghost use Rattle.judge_map.specs.MapText.{cell_record, choices_said, failing_said, header_by};
ghost use Rattle.judge_map.specs.MapText.{map_text as map_text_of, record_by, telling, word_said};

use crate::cell::{SettledCell, Word};
use crate::known::is_never_met;
use base_records::push_record;
use itoa::Buffer;
use judge_margins::map::{Axes, obligations_text, push_obligation};
use judge_settle::settle::choices_word;
use model_line::{Line, Memory, Script};
use std::alloc::Global;

/// The cells as records, the least ends in ticks: `x,y,cell,lost,fails,choices`, of one axis
/// `x,cell,lost,fails,choices`, column by column. What is lost is written `SCRIPT/TERMINAL`, with `;`
/// between two.
pub fn map_text(
    alloc: Global,
    line: &Line,
    scripts: &[Script],
    axes: &Axes,
    cells: &[SettledCell],
) -> Result<Vec<u8>, Memory>
    requires axes { AreAxes line.now axes.now }
    requires few { length scripts.now ≤ 4096 }
    requires cells { AreSettledCells line.now scripts.now axes.now cells.now }
    ensures { IfOk result (λ text.
        text.items ≡ map_text_of line.now scripts.now axes.now cells.now) }
{
    let mut text = Vec::new(alloc);
    push_header(alloc, &mut text, axes)?;
    for place in 0..cells.len() {
        let cell = &cells[place];
        push_cell(alloc, &mut text, line, scripts, axes, cell, place as u32)?;
    }
    Ok(text)
}

fn push_header(alloc: Global, text: &mut Vec<u8>, axes: &Axes) -> Result<(), Memory>
    ensures { OnOk result (text.new.items
        ≡ text.old.items ++ row_text default_writer (header_by axes.now.y)) }
{
    match &axes.y {
        Some(_) => push_record(
            alloc,
            text,
            &[b"x", b"y", b"cell", b"lost", b"fails", b"choices"],
        ),
        None => push_record(alloc, text, &[b"x", b"cell", b"lost", b"fails", b"choices"]),
    }
}

// What a cell says behind its least ends.
#[derive(Clone, Copy)]
struct Told<'a> {
    word: &'a [u8],
    lost: &'a [u8],
    fails: &'a [u8],
    choices: &'a [u8],
}

// Appends the record of the cell at a place.
fn push_cell(
    alloc: Global,
    text: &mut Vec<u8>,
    line: &Line,
    scripts: &[Script],
    axes: &Axes,
    cell: &SettledCell,
    place: u32,
) -> Result<(), Memory>
    requires axes { AreAxes line.now axes.now }
    requires place { place < cell_count axes.now }
    requires few { length cell.now.known.items < 2 ^ 32 }
    ensures { OnOk result (text.new.items ≡ text.old.items ++ row_text default_writer
        (cell_record line.now scripts.now axes.now place cell.now)) }
{
    let lost = cell.lost(alloc)?;
    let lost = obligations_text(alloc, line, scripts, lost.as_slice())?;
    let failing = cell.failing();
    let fails = failing_text(alloc, line, scripts, failing)?;
    let told = Told {
        word: word_of(cell.word()),
        lost: lost.as_slice(),
        fails: fails.as_slice(),
        choices: choices_of(cell, failing),
    };
    push_told(alloc, text, line, axes, place, &told)
}

// Appends the record of a cell at a place that says this.
fn push_told(
    alloc: Global,
    text: &mut Vec<u8>,
    line: &Line,
    axes: &Axes,
    place: u32,
    told: &Told<'_>,
) -> Result<(), Memory>
    requires axes { AreAxes line.now axes.now }
    requires place { place < cell_count axes.now }
    ensures { OnOk result (text.new.items ≡ text.old.items ++ row_text default_writer
        (record_by axes.now.y (least_at axes.now.x (place / rows_of axes.now.y))
        (place % rows_of axes.now.y)
        (telling told.now.word.now told.now.lost.now told.now.fails.now told.now.choices.now))) }
{
    let rows = axes.rows(line);
    let least = axes.x.least(place / rows);
    let mut digits = Buffer::new();
    let x = digits.format(least).as_bytes();
    match &axes.y {
        Some(y) => {
            let mut more = Buffer::new();
            let second = more.format(y.least(place % rows)).as_bytes();
            let fields = [x, second, told.word, told.lost, told.fails, told.choices];
            push_record(alloc, text, &fields)
        }
        None => {
            let fields = [x, told.word, told.lost, told.fails, told.choices];
            push_record(alloc, text, &fields)
        }
    }
}

// The obligation that is named of those that fail.
fn failing_text(
    alloc: Global,
    line: &Line,
    scripts: &[Script],
    failing: Option<u32>,
) -> Result<Vec<u8>, Memory>
    ensures { IfOk result (λ text. text.items ≡ failing_said line.now scripts.now failing) }
{
    let mut text = Vec::new(alloc);
    if let Some(place) = failing {
        push_obligation(&mut text, line, scripts, place)?;
    }
    Ok(text)
}

// For which choices it fails.
fn choices_of(cell: &SettledCell, failing: Option<u32>) -> &'static [u8]
    requires { IfSome failing (λ place. place < length cell.now.known.items) }
    ensures { result.now ≡ choices_said cell.now.known.items failing }
{
    match failing {
        Some(place) => choices_word(is_never_met(cell.known[place as usize])),
        None => b"",
    }
}

/// `held`, `open` or `fails`.
pub fn word_of(word: Word) -> &'static [u8]
    ensures { result.now ≡ word_said word }
{
    match word {
        Word::Held => b"held",
        Word::Open => b"open",
        Word::Fails => b"fails",
    }
}
