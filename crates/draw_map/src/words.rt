//! Times and cells in words.

ghost use Rattle.std.specs.Prelude.{◌≡◌, ◌≤◌, ◌<◌, ◌++◌, ◌^◌, IfOk, OnOk, length};
ghost use Rattle.judge_margins.specs.map.Axes.{AreAxes, IsSecond, cell_count, rows_of};
ghost use Rattle.draw_map.specs.Words.{cell_said, lost_said, ms_said, point_said, row_said};

use crate::map::Map;
use draw_shapes::milliseconds;
use judge_map::{SettledCell, word_of};
use judge_margins::map::{Axis, obligations_text};
use model_line::{Line, Memory, Script};
use std::alloc::Global;

/// Appends ticks in milliseconds.
pub fn push_ms(alloc: Global, text: &mut Vec<u8>, line: &Line, ticks: u32) -> Result<(), Memory>
    requires { ticks ≤ 4000 }
    ensures { OnOk result (text.new.items ≡ text.old.items ++ ms_said line.now ticks) }
{
    let words = milliseconds(alloc, ticks as u64 * line.tick_us as u64)?;
    text.extend_from_slice(words.as_slice())?;
    text.extend_from_slice(b" ms")?;
    Ok(())
}

/// What a cell says: its least ends, what is known, and what is lost.
pub fn cell_words(
    alloc: Global,
    map: &Map,
    place: u32,
    cell: &SettledCell,
) -> Result<Vec<u8>, Memory>
    requires axes { AreAxes map.now.line.now map.now.axes.now }
    requires place { place < cell_count map.now.axes.now }
    requires few { length cell.now.known.items < 2 ^ 32 }
    ensures { IfOk result (λ words. words.items
        ≡ cell_said map.now.line.now map.now.scripts.now map.now.axes.now place cell.now) }
{
    let mut words = Vec::new(alloc);
    push_point(alloc, &mut words, map, place)?;
    words.extend_from_slice(b": ")?;
    words.extend_from_slice(word_of(cell.word()))?;
    let lost = cell.lost(alloc)?;
    push_lost(alloc, &mut words, map.line, map.scripts, lost.as_slice())?;
    Ok(words)
}

// Appends the least ends of a cell.
fn push_point(alloc: Global, text: &mut Vec<u8>, map: &Map, place: u32) -> Result<(), Memory>
    requires axes { AreAxes map.now.line.now map.now.axes.now }
    requires place { place < cell_count map.now.axes.now }
    ensures { OnOk result (text.new.items
        ≡ text.old.items ++ point_said map.now.line.now map.now.axes.now place) }
{
    let rows = map.axes.rows(map.line);
    push_ms(alloc, text, map.line, map.axes.x.least(place / rows))?;
    push_row(alloc, text, map.line, &map.axes.y, place % rows)
}

fn push_row(
    alloc: Global,
    text: &mut Vec<u8>,
    line: &Line,
    axis: &Option<Axis>,
    row: u32,
) -> Result<(), Memory>
    requires axis { IsSecond line.now axis.now }
    requires row { row < rows_of axis.now }
    ensures { OnOk result (text.new.items ≡ text.old.items ++ row_said line.now axis.now row) }
{
    match axis {
        Some(axis) => {
            text.extend_from_slice(b", ")?;
            push_ms(alloc, text, line, axis.least(row))
        }
        None => Ok(()),
    }
}

// Appends what is lost, if anything is.
fn push_lost(
    alloc: Global,
    text: &mut Vec<u8>,
    line: &Line,
    scripts: &[Script],
    lost: &[u32],
) -> Result<(), Memory>
    ensures { OnOk result (text.new.items
        ≡ text.old.items ++ lost_said line.now scripts.now lost.now) }
{
    match lost {
        [] => Ok(()),
        [_, ..] => {
            text.extend_from_slice(b", lost ")?;
            let said = obligations_text(alloc, line, scripts, lost)?;
            text.extend_from_slice(said.as_slice())?;
            Ok(())
        }
    }
}
