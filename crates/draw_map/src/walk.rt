//! The first cell on each side that is not held.

ghost use Rattle.std.specs.Prelude.{◌≡◌, ◌≤◌, ◌<◌, ◌+◌, ◌-◌, ◌^◌, IfSome, Some, length};
ghost use Rattle.std.specs.Prelude.{if◌then◌else◌};
ghost use Rattle.judge_margins.specs.map.Axes.{column_count, row_count};
ghost use Rattle.draw_map.specs.Beyond.{first_from, is_held_at as held_at};
ghost use Rattle.draw_map.specs.Beyond.{last_below, known_at as known_for};
ghost use Rattle.draw_map.specs.Maps.{IsMap};

use crate::map::Map;
use judge_map::{SettledCell, Word};

/// The cell at a column and a row.
pub fn cell_at<'a>(map: &Map<'a>, column: u32, row: u32) -> &'a SettledCell
    requires map { IsMap map.now }
    requires column { column < column_count map.now.axes.now }
    requires row { row < row_count map.now.axes.now }
    ensures is { result.now.known.items ≡ known_for map.now.axes.now map.now.cells.now column row }
    ensures few { length result.now.known.items < 2 ^ 32 }
{
    let place = column * map.axes.rows(map.line) + row;
    &map.cells[place as usize]
}

/// Whether it is held.
pub fn is_held_at(map: &Map, column: u32, row: u32) -> bool
    requires map { IsMap map.now }
    requires column { column < column_count map.now.axes.now }
    requires row { row < row_count map.now.axes.now }
    ensures { result ≡ held_at map.now.axes.now map.now.cells.now column row }
{
    match cell_at(map, column, row).word() {
        Word::Held => true,
        Word::Open | Word::Fails => false,
    }
}

/// The first column from this one on that is not held in a row.
pub fn first_right(map: &Map, from: u32, row: u32) -> Option<u32>
    requires map { IsMap map.now }
    requires from { from ≤ column_count map.now.axes.now }
    requires row { row < row_count map.now.axes.now }
    ensures is { result ≡ first_from (λ c. held_at map.now.axes.now map.now.cells.now c row) from
        (column_count map.now.axes.now - from) }
    ensures within { IfSome result (λ c. c < column_count map.now.axes.now) }
{
    let mut found = None;
    for n in 0..map.axes.columns(map.line) - from {
        found = found.or((!is_held_at(map, from + n, row)).then_some(from + n));
    }
    found
}

/// The last column before this one that is not held in a row.
pub fn last_left(map: &Map, column: u32, row: u32) -> Option<u32>
    requires map { IsMap map.now }
    requires column { column < column_count map.now.axes.now }
    requires row { row < row_count map.now.axes.now }
    ensures is { result
        ≡ last_below (λ c. held_at map.now.axes.now map.now.cells.now c row) column }
    ensures within { IfSome result (λ c. c < column_count map.now.axes.now) }
{
    let mut found = None;
    for c in 0..column {
        found = last_or(found, is_held_at(map, c, row), c);
    }
    found
}

/// The first row from this one on that is not held in a column.
pub fn first_above(map: &Map, column: u32, from: u32) -> Option<u32>
    requires map { IsMap map.now }
    requires column { column < column_count map.now.axes.now }
    requires from { from ≤ row_count map.now.axes.now }
    ensures is { result ≡ first_from (held_at map.now.axes.now map.now.cells.now column) from
        (row_count map.now.axes.now - from) }
    ensures within { IfSome result (λ r. r < row_count map.now.axes.now) }
{
    let mut found = None;
    for n in 0..map.axes.rows(map.line) - from {
        found = found.or((!is_held_at(map, column, from + n)).then_some(from + n));
    }
    found
}

/// The last row before this one that is not held in a column.
pub fn last_beneath(map: &Map, column: u32, row: u32) -> Option<u32>
    requires map { IsMap map.now }
    requires column { column < column_count map.now.axes.now }
    requires row { row < row_count map.now.axes.now }
    ensures is { result
        ≡ last_below (held_at map.now.axes.now map.now.cells.now column) row }
    ensures within { IfSome result (λ r. r < row_count map.now.axes.now) }
{
    let mut found = None;
    for r in 0..row {
        found = last_or(found, is_held_at(map, column, r), r);
    }
    found
}

// n where it does not pass, or else what was found before.
fn last_or(found: Option<u32>, passes: bool, n: u32) -> Option<u32>
    ensures { result ≡ (if passes then found else Some n) }
{
    if passes { found } else { Some(n) }
}
