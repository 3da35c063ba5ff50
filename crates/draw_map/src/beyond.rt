//! What is lost first beyond the border of what is held.

ghost use Rattle.std.specs.Prelude.{◌≡◌, ◌≤◌, ◌<◌, ◌+◌, ◌++◌, ◌^◌, [], IfOk, OnOk, IfSome, length};
ghost use Rattle.std.specs.Prelude.{map as each};
ghost use Rattle.judge_margins.specs.map.Axes.{IsAxis, column_count, count_along, row_count};
ghost use Rattle.draw_map.specs.Beyond.{across_said, beyond_by, beyond_said, columns_said};
ghost use Rattle.draw_map.specs.Beyond.{first_lost_said, rows_said, side_said, up_said};
ghost use Rattle.draw_map.specs.Maps.{IsMap};

use crate::declared::{number, row};
use crate::map::Map;
use crate::walk::{cell_at, first_above, first_right, is_held_at, last_beneath, last_left};
use crate::words::push_ms;
use itoa::Buffer;
use judge_map::SettledCell;
use judge_margins::map::{Axis, push_obligation};
use model_line::{Line, Memory, Script};
use std::alloc::Global;

/// A line for each side of the declared point, as far as something is lost there; none where that
/// point is not among the cells, or is not held.
pub fn beyond(alloc: Global, map: &Map) -> Result<Vec<Vec<u8>>, Memory>
    requires { IsMap map.now }
    ensures are { IfOk result (λ lines. each (λ words. words.items) lines.items
        ≡ beyond_said map.now.line.now map.now.scripts.now map.now.axes.now map.now.cells.now) }
    ensures few { IfOk result (λ lines. length lines.items ≤ 4) }
{
    let column = number(map.line, &map.axes.x);
    let row = row(map.line, &map.axes.y);
    beyond_at(alloc, map, column, row)
}

fn beyond_at(
    alloc: Global,
    map: &Map,
    column: Option<u32>,
    row: Option<u32>,
) -> Result<Vec<Vec<u8>>, Memory>
    requires map { IsMap map.now }
    requires column { IfSome column (λ c. c < column_count map.now.axes.now) }
    requires row { IfSome row (λ r. r < row_count map.now.axes.now) }
    ensures are { IfOk result (λ lines. each (λ words. words.items) lines.items
        ≡ beyond_by map.now.line.now map.now.scripts.now map.now.axes.now map.now.cells.now column row) }
    ensures few { IfOk result (λ lines. length lines.items ≤ 4) }
{
    let mut lines = Vec::new(alloc);
    let Some(column) = column else {
        return Ok(lines);
    };
    let Some(row) = row else {
        return Ok(lines);
    };
    if is_held_at(map, column, row) {
        push_columns(alloc, &mut lines, map, column, row)?;
        push_rows(alloc, &mut lines, map, column, row)?;
    }
    Ok(lines)
}

// Appends what is lost to the right and to the left.
fn push_columns(
    alloc: Global,
    lines: &mut Vec<Vec<u8>>,
    map: &Map,
    column: u32,
    row: u32,
) -> Result<(), Memory>
    requires map { IsMap map.now }
    requires column { column < column_count map.now.axes.now }
    requires row { row < row_count map.now.axes.now }
    ensures are { OnOk result (each (λ words. words.items) lines.new.items
        ≡ each (λ words. words.items) lines.old.items
        ++ columns_said map.now.line.now map.now.scripts.now map.now.axes.now map.now.cells.now column row) }
    ensures few { OnOk result (length lines.new.items ≤ length lines.old.items + 2) }
{
    let right = first_right(map, column + 1, row);
    push_across(alloc, lines, map, b"right from ", row, right)?;
    let left = last_left(map, column, row);
    push_across(alloc, lines, map, b"left from ", row, left)
}

fn push_across(
    alloc: Global,
    lines: &mut Vec<Vec<u8>>,
    map: &Map,
    side: &[u8],
    row: u32,
    column: Option<u32>,
) -> Result<(), Memory>
    requires map { IsMap map.now }
    requires column { IfSome column (λ c. c < column_count map.now.axes.now) }
    requires row { row < row_count map.now.axes.now }
    ensures are { OnOk result (each (λ words. words.items) lines.new.items
        ≡ each (λ words. words.items) lines.old.items
        ++ across_said map.now.line.now map.now.scripts.now map.now.axes.now map.now.cells.now
        side.now row column) }
    ensures few { OnOk result (length lines.new.items ≤ length lines.old.items + 1) }
{
    if let Some(column) = column {
        let least = map.axes.x.least(column);
        let words = side_words(alloc, map, side, least, cell_at(map, column, row))?;
        lines.push(words)?;
    }
    Ok(())
}

// Appends what is lost above and below, where there is a second axis.
fn push_rows(
    alloc: Global,
    lines: &mut Vec<Vec<u8>>,
    map: &Map,
    column: u32,
    row: u32,
) -> Result<(), Memory>
    requires map { IsMap map.now }
    requires column { column < column_count map.now.axes.now }
    requires row { row < row_count map.now.axes.now }
    ensures are { OnOk result (each (λ words. words.items) lines.new.items
        ≡ each (λ words. words.items) lines.old.items
        ++ rows_said map.now.line.now map.now.scripts.now map.now.axes.now map.now.cells.now
        map.now.axes.now.y column row) }
    ensures few { OnOk result (length lines.new.items ≤ length lines.old.items + 2) }
{
    let Some(axis) = &map.axes.y else {
        return Ok(());
    };
    let above = first_above(map, column, row + 1);
    push_up(alloc, lines, map, axis, b"above from ", column, above)?;
    let below = last_beneath(map, column, row);
    push_up(alloc, lines, map, axis, b"below from ", column, below)
}

fn push_up(
    alloc: Global,
    lines: &mut Vec<Vec<u8>>,
    map: &Map,
    axis: &Axis,
    side: &[u8],
    column: u32,
    row: Option<u32>,
) -> Result<(), Memory>
    requires map { IsMap map.now }
    requires axis { IsAxis map.now.line.now axis.now }
    requires count { count_along axis.now ≡ row_count map.now.axes.now }
    requires column { column < column_count map.now.axes.now }
    requires row { IfSome row (λ r. r < row_count map.now.axes.now) }
    ensures are { OnOk result (each (λ words. words.items) lines.new.items
        ≡ each (λ words. words.items) lines.old.items
        ++ up_said map.now.line.now map.now.scripts.now map.now.axes.now map.now.cells.now axis.now
        side.now column row) }
    ensures few { OnOk result (length lines.new.items ≤ length lines.old.items + 1) }
{
    if let Some(row) = row {
        let least = axis.least(row);
        let words = side_words(alloc, map, side, least, cell_at(map, column, row))?;
        lines.push(words)?;
    }
    Ok(())
}

// To which side, from which least end on, and what is lost first in this cell.
fn side_words(
    alloc: Global,
    map: &Map,
    side: &[u8],
    least: u32,
    cell: &SettledCell,
) -> Result<Vec<u8>, Memory>
    requires least { least ≤ 4000 }
    requires few { length cell.now.known.items < 2 ^ 32 }
    ensures { IfOk result (λ words. words.items
        ≡ side_said map.now.line.now map.now.scripts.now side.now least cell.now.known.items) }
{
    let mut words = Vec::from_slice(alloc, side)?;
    push_ms(alloc, &mut words, map.line, least)?;
    words.extend_from_slice(b": ")?;
    let lost = cell.lost(alloc)?;
    push_first(&mut words, map.line, map.scripts, lost.as_slice())?;
    Ok(words)
}

// Appends the first that is lost, and how many more are.
fn push_first(
    text: &mut Vec<u8>,
    line: &Line,
    scripts: &[Script],
    lost: &[u32],
) -> Result<(), Memory>
    ensures { OnOk result (text.new.items
        ≡ text.old.items ++ first_lost_said line.now scripts.now lost.now) }
{
    match lost {
        [] => Ok(()),
        [place] => push_obligation(text, line, scripts, *place),
        [place, more @ ..] => {
            push_obligation(text, line, scripts, *place)?;
            text.extend_from_slice(b" and ")?;
            text.extend_from_slice(Buffer::new().format(more.len()).as_bytes())?;
            text.extend_from_slice(b" more")?;
            Ok(())
        }
    }
}
