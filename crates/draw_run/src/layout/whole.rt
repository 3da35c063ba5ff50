//! A diagram as a drawing.

ghost use Rattle.std.specs.Prelude.{◌≡◌, ◌<◌, ◌++◌, ◌∷◌, [], List, IfOk, OnOk};
ghost use Rattle.draw_run.specs.layout.Axis.{axis};
ghost use Rattle.draw_run.specs.layout.Drawings.{drawing_of, head_drawn, shapes_above};
ghost use Rattle.draw_run.specs.{layout.Legend.legend, layout.Marks.marks};
ghost use Rattle.draw_run.specs.layout.Left.{scale_of};
ghost use Rattle.draw_shapes.specs.Seen.{SeenFigure, drawing_seen, figures_seen, shapes_seen};
ghost use Rattle.draw_shapes.specs.Seen as seen;

use crate::diagram::Diagram;
use crate::layout::axis::{AXIS_HEIGHT, put_axis};
use crate::layout::heading::heading_words;
use crate::layout::left::scale_of;
use crate::layout::legend::{LEGEND_HEIGHT, put_legend};
use crate::layout::mark::put_marks;
use crate::layout::rows::{TOP, bottom_of, put_rows};
use crate::layout::scale::Scale;
use crate::layout::subject::Subject;
use draw_shapes::{Class, Drawing, Figure, Shape, put_rectangle, put_words};
use model_line::{Line, Memory, Script};
use std::alloc::Global;

/// The drawing of a diagram.
pub fn draw(
    alloc: Global,
    line: &Line,
    script: &Script,
    subject: Subject,
    diagram: &Diagram,
) -> Result<Drawing, Memory>
    ensures { IfOk result (λ drawing.
        drawing_seen drawing ≡ drawing_of line.now script.now subject diagram.now) }
{
    let title = heading_words(alloc, line, script, subject)?;
    let scale = scale_of(alloc, line, diagram)?;
    let bottom = bottom_of(TOP, diagram.rows.as_slice());
    let height = bottom
        .saturating_add(AXIS_HEIGHT)
        .saturating_add(LEGEND_HEIGHT);
    let shapes = shapes_of(alloc, line, scale, diagram, title.bytes.as_slice(), bottom)?;
    Ok(Drawing {
        title: title.bytes,
        height,
        shapes,
    })
}

// The shapes of a diagram whose rows end at `bottom`.
fn shapes_of(
    alloc: Global,
    line: &Line,
    scale: Scale,
    diagram: &Diagram,
    heading: &[u8],
    bottom: u32,
) -> Result<Vec<Shape>, Memory>
    ensures { IfOk result (λ shapes. shapes_seen shapes.items
        ≡ shapes_above line.now scale diagram.now heading.now bottom) }
{
    let mut shapes = Vec::new(alloc);
    put_shapes(alloc, &mut shapes, line, scale, diagram, heading, bottom)?;
    Ok(shapes)
}

fn put_shapes(
    alloc: Global,
    shapes: &mut Vec<Shape>,
    line: &Line,
    scale: Scale,
    diagram: &Diagram,
    heading: &[u8],
    bottom: u32,
) -> Result<(), Memory>
    ensures { OnOk result (shapes_seen shapes.new.items
        ≡ shapes_seen shapes.old.items
        ++ shapes_above line.now scale diagram.now heading.now bottom) }
{
    let foot = bottom.saturating_add(AXIS_HEIGHT);
    let height = foot.saturating_add(LEGEND_HEIGHT);
    put_shape(shapes, head(alloc, heading, height))?;
    put_shape(shapes, axis(alloc, line, scale, bottom))?;
    put_rows(alloc, shapes, line, scale, diagram)?;
    put_shape(shapes, marked(alloc, line, scale, diagram, bottom))?;
    put_shape(shapes, legend(alloc, line, diagram, foot))
}

// Appends figures as a shape, unless memory was wanting for them.
fn put_shape(shapes: &mut Vec<Shape>, figures: Result<Vec<Figure>, Memory>) -> Result<(), Memory>
    ensures { (f : List SeenFigure) → IfOk figures (λ figures. figures_seen figures.items ≡ f)
        → OnOk result (shapes_seen shapes.new.items
        ≡ shapes_seen shapes.old.items ++ seen.plain f ∷ []) }
{
    shapes.push(Shape::Plain(figures?))?;
    Ok(())
}

// Paper as large as the drawing, and the heading.
fn head(alloc: Global, heading: &[u8], height: u32) -> Result<Vec<Figure>, Memory>
    ensures { IfOk result (λ figures.
        figures_seen figures.items ≡ head_drawn heading.now height) }
{
    let mut figures = Vec::new(alloc);
    put_rectangle(&mut figures, Class::Paper, (0, 0), (10000, height))?;
    put_words(alloc, &mut figures, Class::Heading, (140, 260), heading)?;
    Ok(figures)
}

fn axis(alloc: Global, line: &Line, scale: Scale, bottom: u32) -> Result<Vec<Figure>, Memory>
    ensures { IfOk result (λ figures.
        figures_seen figures.items ≡ axis line.now scale 600 bottom) }
{
    let mut figures = Vec::new(alloc);
    put_axis(alloc, &mut figures, line, scale, TOP, bottom)?;
    Ok(figures)
}

fn marked(
    alloc: Global,
    line: &Line,
    scale: Scale,
    diagram: &Diagram,
    bottom: u32,
) -> Result<Vec<Figure>, Memory>
    ensures { IfOk result (λ figures.
        figures_seen figures.items ≡ marks line.now scale diagram.now 600 bottom) }
{
    let mut figures = Vec::new(alloc);
    put_marks(alloc, &mut figures, line, scale, diagram, TOP, bottom)?;
    Ok(figures)
}

fn legend(alloc: Global, line: &Line, diagram: &Diagram, foot: u32) -> Result<Vec<Figure>, Memory>
    ensures { IfOk result (λ figures.
        figures_seen figures.items ≡ legend line.now diagram.now foot) }
{
    let mut figures = Vec::new(alloc);
    put_legend(alloc, &mut figures, line, diagram, foot)?;
    Ok(figures)
}
