//! A grid as a drawing.

ghost use Rattle.std.specs.Prelude.{◌≡◌, ◌++◌, ◌∷◌, [], List, IfOk, OnOk};
ghost use Rattle.draw_shapes.specs.Seen.{SeenFigure, drawing_seen, figures_seen, shapes_seen};
ghost use Rattle.draw_shapes.specs.Seen as seen;
ghost use Rattle.draw_shapes.specs.Scale.{IsGrid, IsScale, scale_of as scale_for};
ghost use Rattle.draw_shapes.specs.Drawings.{border_drawn, drawing_of, head_drawn, height_of};
ghost use Rattle.draw_shapes.specs.Drawings.{legend_drawn, rulers_drawn, shapes_by};
ghost use Rattle.draw_shapes.specs.Legend.{mark};

use crate::border::put_border;
use crate::class::Class;
use crate::figure::Figure;
use crate::grid::Grid;
use crate::legend::put_legend;
use crate::mark::put_mark;
use crate::numbers::{put_columns, put_rows};
use crate::pen::{put_rectangle, put_words};
use crate::scale::{Scale, scale_of};
use crate::shape::{Drawing, Shape};
use crate::spots::put_cells;
use std::alloc::{AllocError, Global};

/// The drawing of a grid.
pub fn draw(alloc: Global, grid: &Grid) -> Result<Drawing, AllocError>
    requires { IsGrid grid.now }
    ensures { IfOk result (λ drawing. drawing_seen drawing ≡ drawing_of grid.now) }
{
    let scale = scale_of(grid);
    let title = Vec::from_slice(alloc, grid.title.as_slice())?;
    let shapes = shapes(alloc, scale, grid)?;
    Ok(Drawing {
        title,
        height: height(scale),
        shapes,
    })
}

fn height(scale: Scale) -> u32
    requires { IsScale scale }
    ensures { result ≡ height_of scale }
{
    (scale.bottom() + 600).max(4000)
}

fn shapes(alloc: Global, scale: Scale, grid: &Grid) -> Result<Vec<Shape>, AllocError>
    requires grid { IsGrid grid.now }
    requires scale { scale ≡ scale_for grid.now }
    requires fits { IsScale scale }
    ensures { IfOk result (λ shapes. shapes_seen shapes.items ≡ shapes_by scale grid.now) }
{
    let mut shapes = Vec::new(alloc);
    put_shapes(alloc, &mut shapes, scale, grid)?;
    Ok(shapes)
}

fn put_shapes(
    alloc: Global,
    shapes: &mut Vec<Shape>,
    scale: Scale,
    grid: &Grid,
) -> Result<(), AllocError>
    requires grid { IsGrid grid.now }
    requires scale { scale ≡ scale_for grid.now }
    requires fits { IsScale scale }
    ensures { OnOk result (shapes_seen shapes.new.items
        ≡ shapes_seen shapes.old.items ++ shapes_by scale grid.now) }
{
    put_shape(shapes, head(alloc, scale, grid))?;
    put_cells(alloc, shapes, scale, grid.cells.as_slice())?;
    put_shape(shapes, border(alloc, scale, grid))?;
    put_shape(shapes, rulers(alloc, scale, grid))?;
    put_shape(shapes, marked(alloc, scale, grid))?;
    put_shape(shapes, legend(alloc, scale, grid))
}

// Appends figures as a shape, unless memory was wanting for them.
fn put_shape(
    shapes: &mut Vec<Shape>,
    figures: Result<Vec<Figure>, AllocError>,
) -> Result<(), AllocError>
    ensures { (f : List SeenFigure) → IfOk figures (λ figures. figures_seen figures.items ≡ f)
        → OnOk result (shapes_seen shapes.new.items
        ≡ shapes_seen shapes.old.items ++ seen.plain f ∷ []) }
{
    shapes.push(Shape::Plain(figures?))?;
    Ok(())
}

// Paper as large as the drawing, the title and the note.
fn head(alloc: Global, scale: Scale, grid: &Grid) -> Result<Vec<Figure>, AllocError>
    requires { IsScale scale }
    ensures { IfOk result (λ figures. figures_seen figures.items ≡ head_drawn scale grid.now) }
{
    let mut figures = Vec::new(alloc);
    put_rectangle(&mut figures, Class::Paper, (0, 0), (10000, height(scale)))?;
    let title = grid.title.as_slice();
    put_words(alloc, &mut figures, Class::Heading, (140, 300), title)?;
    let note = grid.note.as_slice();
    put_words(alloc, &mut figures, Class::Quiet, (140, 530), note)?;
    Ok(figures)
}

fn border(alloc: Global, scale: Scale, grid: &Grid) -> Result<Vec<Figure>, AllocError>
    requires grid { IsGrid grid.now }
    requires scale { scale ≡ scale_for grid.now }
    requires fits { IsScale scale }
    ensures { IfOk result (λ figures. figures_seen figures.items ≡ border_drawn scale grid.now) }
{
    let mut figures = Vec::new(alloc);
    put_border(&mut figures, scale, grid.cells.as_slice())?;
    Ok(figures)
}

fn rulers(alloc: Global, scale: Scale, grid: &Grid) -> Result<Vec<Figure>, AllocError>
    requires grid { IsGrid grid.now }
    requires fits { IsScale scale }
    ensures { IfOk result (λ figures. figures_seen figures.items ≡ rulers_drawn scale grid.now) }
{
    let mut figures = Vec::new(alloc);
    put_columns(alloc, &mut figures, scale, &grid.x)?;
    put_rows(alloc, &mut figures, scale, &grid.y)?;
    Ok(figures)
}

fn marked(alloc: Global, scale: Scale, grid: &Grid) -> Result<Vec<Figure>, AllocError>
    requires grid { IsGrid grid.now }
    requires fits { IsScale scale }
    ensures { IfOk result (λ figures. figures_seen figures.items ≡ mark scale grid.now) }
{
    let mut figures = Vec::new(alloc);
    put_mark(&mut figures, scale, grid)?;
    Ok(figures)
}

fn legend(alloc: Global, scale: Scale, grid: &Grid) -> Result<Vec<Figure>, AllocError>
    requires grid { IsGrid grid.now }
    requires fits { IsScale scale }
    ensures { IfOk result (λ figures. figures_seen figures.items ≡ legend_drawn scale grid.now) }
{
    let mut figures = Vec::new(alloc);
    put_legend(alloc, &mut figures, scale, grid)?;
    Ok(figures)
}
