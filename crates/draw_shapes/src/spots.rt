//! The cells of a grid.

ghost use Rattle.std.specs.Prelude.{◌≡◌, ◌≤◌, ◌<◌, ◌*◌, ◌/◌, ◌++◌, ◌∷◌, [], IfOk, OnOk, length};
ghost use Rattle.draw_shapes.specs.Seen.{figures_seen, shape_seen, shapes_seen};
ghost use Rattle.draw_shapes.specs.Scale.{IsScale};
ghost use Rattle.draw_shapes.specs.Cells.{cell_drawn, cell_figures, cells_drawn, class_of as class_for};
ghost use Rattle.draw_shapes.specs.Cells.{dot, dot_size as size_of_dot};

use crate::class::Class;
use crate::figure::Figure;
use crate::grid::{GridCell, Look};
use crate::pen::put_rectangle;
use crate::scale::Scale;
use crate::shape::Shape;
use std::alloc::{AllocError, Global};

/// Appends the cells.
pub fn put_cells(
    alloc: Global,
    shapes: &mut Vec<Shape>,
    scale: Scale,
    cells: &[GridCell],
) -> Result<(), AllocError>
    requires fits { IsScale scale }
    requires count { length cells.now ≡ scale.columns * scale.rows }
    ensures { OnOk result (shapes_seen shapes.new.items
        ≡ shapes_seen shapes.old.items ++ cells_drawn scale 0 cells.now) }
{
    for place in 0..cells.len() {
        let shape = cell_shape(alloc, scale, place as u32, &cells[place])?;
        shapes.push(shape)?;
    }
    Ok(())
}

// A cell under its words.
fn cell_shape(alloc: Global, scale: Scale, place: u32, cell: &GridCell) -> Result<Shape, AllocError>
    requires fits { IsScale scale }
    requires place { place < scale.columns * scale.rows }
    ensures { IfOk result (λ shape. shape_seen shape ≡ cell_drawn scale place cell.now) }
{
    let x = scale.x(place / scale.rows);
    let y = scale.y(place % scale.rows);
    let mut figures = Vec::new(alloc);
    put_cell(&mut figures, scale, (x, y), cell.look)?;
    let words = Vec::from_slice(alloc, cell.words.as_slice())?;
    Ok(Shape::Titled(words, figures))
}

/// Appends a cell with this corner.
pub fn put_cell(
    figures: &mut Vec<Figure>,
    scale: Scale,
    corner: (u32, u32),
    look: Look,
) -> Result<(), AllocError>
    requires fits { IsScale scale }
    requires x { corner.0 ≤ 2000000 }
    requires y { corner.1 ≤ 2000000 }
    ensures { OnOk result (figures_seen figures.new.items
        ≡ figures_seen figures.old.items ++ cell_figures scale corner.0 corner.1 look) }
{
    let size = (scale.width, scale.height);
    put_rectangle(figures, class_of(look), corner, size)?;
    match look {
        Look::Open => put_dot(figures, scale, corner),
        Look::Held | Look::Fails => Ok(()),
    }
}

fn class_of(look: Look) -> Class
    ensures { result ≡ class_for look }
{
    match look {
        Look::Held => Class::LogicHatch,
        Look::Open => Class::KeyPale,
        Look::Fails => Class::TripOpen,
    }
}

// Appends the dot of a cell with this corner.
fn put_dot(figures: &mut Vec<Figure>, scale: Scale, corner: (u32, u32)) -> Result<(), AllocError>
    requires fits { IsScale scale }
    requires x { corner.0 ≤ 2000000 }
    requires y { corner.1 ≤ 2000000 }
    ensures { OnOk result (figures_seen figures.new.items
        ≡ figures_seen figures.old.items ++ dot scale corner.0 corner.1 ∷ []) }
{
    let size = dot_size(scale);
    let x = corner.0 + (scale.width - size) / 2;
    let y = corner.1 + (scale.height - size) / 2;
    put_rectangle(figures, Class::KeyOn, (x, y), (size, size))
}

fn dot_size(scale: Scale) -> u32
    ensures is { result ≡ size_of_dot scale }
    ensures narrow { result ≤ scale.width }
    ensures low { result ≤ scale.height }
{
    scale.width.min(scale.height) / 3
}
