//! The cells of the grid.

ghost use Rattle.std.specs.Prelude.{◌≡◌, ◌<◌, ◌^◌, IfOk, length, map as each};
ghost use Rattle.judge_margins.specs.map.Axes.{AreAxes, cell_count};
ghost use Rattle.draw_map.specs.Maps.{IsMap};
ghost use Rattle.draw_map.specs.Words.{cell_seen, cell_shown, cells_shown, look_of as look_for};

use crate::map::Map;
use crate::words::cell_words;
use draw_shapes::{GridCell, Look};
use judge_map::{SettledCell, Word};
use model_line::Memory;
use std::alloc::Global;

/// Each cell of a map as what is known of it, with its words.
pub fn spots(alloc: Global, map: &Map) -> Result<Vec<GridCell>, Memory>
    requires { IsMap map.now }
    ensures count { IfOk result (λ spots. length spots.items ≡ length map.now.cells.now) }
    ensures are { IfOk result (λ spots. each cell_seen spots.items
        ≡ cells_shown map.now.line.now map.now.scripts.now map.now.axes.now 0 map.now.cells.now) }
{
    let mut spots = Vec::with_capacity(alloc, map.cells.len())?;
    for place in 0..map.cells.len() {
        spots.push(spot(alloc, map, place as u32, &map.cells[place])?)?;
    }
    Ok(spots)
}

fn spot(alloc: Global, map: &Map, place: u32, cell: &SettledCell) -> Result<GridCell, Memory>
    requires axes { AreAxes map.now.line.now map.now.axes.now }
    requires place { place < cell_count map.now.axes.now }
    requires few { length cell.now.known.items < 2 ^ 32 }
    ensures { IfOk result (λ spot. cell_seen spot
        ≡ cell_shown map.now.line.now map.now.scripts.now map.now.axes.now place cell.now) }
{
    let words = cell_words(alloc, map, place, cell)?;
    Ok(GridCell {
        look: look_of(cell.word()),
        words,
    })
}

fn look_of(word: Word) -> Look
    ensures { result ≡ look_for word }
{
    match word {
        Word::Held => Look::Held,
        Word::Open => Look::Open,
        Word::Fails => Look::Fails,
    }
}
