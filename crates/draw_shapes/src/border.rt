//! The border of what is held.

ghost use Rattle.std.specs.Prelude.{◌≡◌, ◌≤◌, ◌<◌, ◌*◌, ◌/◌, ◌%◌, ◌++◌, OnOk, length};
ghost use Rattle.model_history.specs.Each.{each_below};
ghost use Rattle.draw_shapes.specs.Seen.{figures_seen};
ghost use Rattle.draw_shapes.specs.Scale.{IsScale};
ghost use Rattle.draw_shapes.specs.Cells.{bars_at, held_at as held_in, is_held as look_is_held};
ghost use Rattle.draw_shapes.specs.Cells.{parts as parts_of, right_bar, upper_bar};

use crate::class::Class;
use crate::figure::Figure;
use crate::grid::{GridCell, Look};
use crate::pen::put_rectangle;
use crate::scale::Scale;
use std::alloc::AllocError;

/// Appends a bar between each two neighbours of which one is held and one is not.
pub fn put_border(
    figures: &mut Vec<Figure>,
    scale: Scale,
    cells: &[GridCell],
) -> Result<(), AllocError>
    requires fits { IsScale scale }
    requires count { length cells.now ≡ scale.columns * scale.rows }
    ensures { OnOk result (figures_seen figures.new.items
        ≡ figures_seen figures.old.items
        ++ each_below (length cells.now) (bars_at scale cells.now)) }
{
    for place in 0..cells.len() {
        put_bars(figures, scale, cells, place as u32)?;
    }
    Ok(())
}

// Appends the bars at the right end and at the upper end of a cell.
fn put_bars(
    figures: &mut Vec<Figure>,
    scale: Scale,
    cells: &[GridCell],
    place: u32,
) -> Result<(), AllocError>
    requires fits { IsScale scale }
    requires place { place < scale.columns * scale.rows }
    ensures { OnOk result (figures_seen figures.new.items
        ≡ figures_seen figures.old.items ++ bars_at scale cells.now place) }
{
    put_right_bar(figures, scale, cells, place)?;
    put_upper_bar(figures, scale, cells, place)
}

fn put_right_bar(
    figures: &mut Vec<Figure>,
    scale: Scale,
    cells: &[GridCell],
    place: u32,
) -> Result<(), AllocError>
    requires fits { IsScale scale }
    requires place { place < scale.columns * scale.rows }
    ensures { OnOk result (figures_seen figures.new.items
        ≡ figures_seen figures.old.items ++ right_bar scale cells.now place) }
{
    let (column, row) = (place / scale.rows, place % scale.rows);
    if column + 1 < scale.columns && parts(cells, place, place + scale.rows) {
        let corner = (scale.x(column + 1) - 10, scale.y(row));
        put_rectangle(figures, Class::Margin, corner, (20, scale.height))?;
    }
    Ok(())
}

fn put_upper_bar(
    figures: &mut Vec<Figure>,
    scale: Scale,
    cells: &[GridCell],
    place: u32,
) -> Result<(), AllocError>
    requires fits { IsScale scale }
    requires place { place < scale.columns * scale.rows }
    ensures { OnOk result (figures_seen figures.new.items
        ≡ figures_seen figures.old.items ++ upper_bar scale cells.now place) }
{
    let (column, row) = (place / scale.rows, place % scale.rows);
    if row + 1 < scale.rows && parts(cells, place, place + 1) {
        let corner = (scale.x(column), scale.y(row) - 10);
        put_rectangle(figures, Class::Margin, corner, (scale.width, 20))?;
    }
    Ok(())
}

// Whether one of the two is held, and one is not.
fn parts(cells: &[GridCell], a: u32, b: u32) -> bool
    ensures { result ≡ parts_of cells.now a b }
{
    if held_at(cells, a) {
        !held_at(cells, b)
    } else {
        held_at(cells, b)
    }
}

fn held_at(cells: &[GridCell], place: u32) -> bool
    ensures { result ≡ held_in cells.now place }
{
    match cells.get(place as usize) {
        Some(cell) => is_held(cell.look),
        None => false,
    }
}

/// Whether a cell with this look is held.
pub fn is_held(look: Look) -> bool
    ensures { result ≡ look_is_held look }
{
    match look {
        Look::Held => true,
        Look::Open | Look::Fails => false,
    }
}
