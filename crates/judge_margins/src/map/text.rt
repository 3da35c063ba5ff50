//! The cells of a map as CSV records.

ghost use Rattle.std.specs.Prelude.{◌≡◌, ◌≤◌, ◌<◌, ◌+◌, ◌*◌, ◌/◌, ◌%◌, ◌^◌, ◌++◌, OnOk, IfOk, length};
ghost use Rattle.csv.specs.Writing.{row_text, default_writer};
ghost use Rattle.judge_margins.specs.map.Axes.{AreAxes, cell_count};
ghost use Rattle.judge_margins.specs.map.Cells.{AreCells};
ghost use Rattle.judge_margins.specs.map.MapText.{cell_record, header_by, map_text as map_text_of};
ghost use Rattle.judge_margins.specs.map.MapText.{obligation_said, obligations_said, word_said};

use crate::map::axis::{Axes, Axis};
use crate::map::cell::{Cell, Word};
use base_records::push_record;
use itoa::Buffer;
use model_line::{Line, Memory, Script, name_of_script, name_of_terminal};
use std::alloc::Global;

/// The cells as records, the least ends in ticks: `x,y,cell,lost`, of one axis `x,cell,lost`, column
/// by column. What is lost is written `SCRIPT/TERMINAL`, with `;` between two.
pub fn map_text(
    alloc: Global,
    line: &Line,
    scripts: &[Script],
    axes: &Axes,
    cells: &[Cell],
) -> Result<Vec<u8>, Memory>
    requires axes { AreAxes line.now axes.now }
    requires few { length scripts.now ≤ 4096 }
    requires cells { AreCells line.now scripts.now axes.now cells.now }
    ensures { IfOk result (λ text.
        text.items ≡ map_text_of line.now scripts.now axes.now cells.now) }
{
    let mut text = Vec::new(alloc);
    push_header(alloc, &mut text, axes)?;
    for place in 0..cells.len() {
        let cell = &cells[place];
        push_cell(alloc, &mut text, line, scripts, axes, cell, place as u32)?;
    }
    Ok(text)
}

fn push_header(alloc: Global, text: &mut Vec<u8>, axes: &Axes) -> Result<(), Memory>
    ensures { OnOk result (text.new.items
        ≡ text.old.items ++ row_text default_writer (header_by axes.now.y)) }
{
    match &axes.y {
        Some(_) => push_record(alloc, text, &[b"x", b"y", b"cell", b"lost"]),
        None => push_record(alloc, text, &[b"x", b"cell", b"lost"]),
    }
}

// Appends the record of the cell at a place.
fn push_cell(
    alloc: Global,
    text: &mut Vec<u8>,
    line: &Line,
    scripts: &[Script],
    axes: &Axes,
    cell: &Cell,
    place: u32,
) -> Result<(), Memory>
    requires axes { AreAxes line.now axes.now }
    requires place { place < cell_count axes.now }
    requires few { length cell.now.rules.items < 2 ^ 32 }
    ensures { OnOk result (text.new.items ≡ text.old.items ++ row_text default_writer
        (cell_record line.now scripts.now axes.now place cell.now)) }
{
    let rows = axes.rows(line);
    let least = axes.x.least(place / rows);
    let lost = cell.lost(alloc)?;
    let said = obligations_text(alloc, line, scripts, lost.as_slice())?;
    let word = word_of(cell.word());
    let mut digits = Buffer::new();
    let x = digits.format(least).as_bytes();
    match &axes.y {
        Some(y) => {
            let mut more = Buffer::new();
            let second = more.format(y.least(place % rows)).as_bytes();
            push_record(alloc, text, &[x, second, word, said.as_slice()])
        }
        None => push_record(alloc, text, &[x, word, said.as_slice()]),
    }
}

/// `held`, `open` or `fails`.
pub fn word_of(word: Word) -> &'static [u8]
    ensures { result.now ≡ word_said word }
{
    match word {
        Word::Held => b"held",
        Word::Open => b"open",
        Word::Fails => b"fails",
    }
}

/// These obligations by their places, each as `SCRIPT/TERMINAL`, with `;` between two.
pub fn obligations_text(
    alloc: Global,
    line: &Line,
    scripts: &[Script],
    places: &[u32],
) -> Result<Vec<u8>, Memory>
    ensures { IfOk result (λ text.
        text.items ≡ obligations_said line.now scripts.now places.now) }
{
    let mut text = Vec::new(alloc);
    for n in 0..places.len() {
        if n > 0 {
            text.push(b';')?;
        }
        push_obligation(&mut text, line, scripts, places[n])?;
    }
    Ok(text)
}

/// Appends `SCRIPT/TERMINAL`.
pub fn push_obligation(
    text: &mut Vec<u8>,
    line: &Line,
    scripts: &[Script],
    place: u32,
) -> Result<(), Memory>
    ensures { OnOk result (text.new.items
        ≡ text.old.items ++ obligation_said line.now scripts.now place) }
{
    let many = line.terminals.len() as u32;
    text.extend_from_slice(name_of_script(scripts, place / many))?;
    text.extend_from_slice(b"/")?;
    text.extend_from_slice(name_of_terminal(line, place % many))?;
    Ok(())
}
