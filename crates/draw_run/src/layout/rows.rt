//! The rows of a drawing, one below the other.

ghost use Rattle.std.specs.Prelude.{◌≡◌, ◌≤◌, ◌++◌, ◌∷◌, [], IfOk, OnOk};
ghost use Rattle.draw_run.specs.layout.Drawings.{begins_terminal, room_above, height_above};
ghost use Rattle.draw_run.specs.layout.Drawings.{height_below, name_drawn, beside, row_drawn};
ghost use Rattle.draw_run.specs.layout.Drawings.{rows_drawn, bottom_of};
ghost use Rattle.draw_shapes.specs.Seen.{figures_seen, shapes_seen};

use crate::diagram::{Diagram, Row, Trace};
use crate::layout::row::drawn_row;
use crate::layout::scale::Scale;
use crate::layout::trip::put_trip;
use draw_shapes::{Class, Figure, Shape, put_words};
use model_line::{Element, Line, Memory, name_of_terminal};
use std::alloc::Global;

/// Where the rows begin: below the heading and the words of the marks.
pub const TOP: u32 = 600;

/// Appends the rows with what is written at them, and answers where they end.
pub fn put_rows(
    alloc: Global,
    shapes: &mut Vec<Shape>,
    line: &Line,
    scale: Scale,
    diagram: &Diagram,
) -> Result<(), Memory>
    ensures { OnOk result (shapes_seen shapes.new.items
        ≡ shapes_seen shapes.old.items
        ++ rows_drawn line.now scale diagram.now 600 diagram.now.rows.items) }
{
    put_from(
        alloc,
        shapes,
        line,
        scale,
        diagram,
        TOP,
        diagram.rows.as_slice(),
    )
}

// Appends rows from y on.
fn put_from(
    alloc: Global,
    shapes: &mut Vec<Shape>,
    line: &Line,
    scale: Scale,
    diagram: &Diagram,
    y: u32,
    rows: &[Row],
) -> Result<(), Memory>
    ensures { OnOk result (shapes_seen shapes.new.items
        ≡ shapes_seen shapes.old.items ++ rows_drawn line.now scale diagram.now y rows.now) }
{
    match rows {
        [] => Ok(()),
        [shown, rest @ ..] => {
            let base = y.saturating_add(height_above(shown));
            put_row(alloc, shapes, line, scale, diagram, base, shown)?;
            let end = base.saturating_add(height_below(shown.trace));
            put_from(alloc, shapes, line, scale, diagram, end, rest)
        }
    }
}

/// Where rows end that begin at y.
pub fn bottom_of(y: u32, rows: &[Row]) -> u32
    ensures { result ≡ bottom_of y rows.now }
{
    match rows {
        [] => y,
        [shown, rest @ ..] => {
            let base = y.saturating_add(height_above(shown));
            bottom_of(base.saturating_add(height_below(shown.trace)), rest)
        }
    }
}

// Appends a row on its base, if it is drawn, and what is written at it.
#[tactic(auto, unfolding(crate::specs::layout::Drawings::row_drawn))]
fn put_row(
    alloc: Global,
    shapes: &mut Vec<Shape>,
    line: &Line,
    scale: Scale,
    diagram: &Diagram,
    base: u32,
    shown: &Row,
) -> Result<(), Memory>
    ensures { OnOk result (shapes_seen shapes.new.items
        ≡ shapes_seen shapes.old.items ++ row_drawn line.now scale diagram.now base shown.now) }
{
    if shown.is_drawn {
        let drawn = drawn_row(alloc, line, scale, shown, base)?;
        shapes.push(drawn)?;
    }
    let mut written = Vec::new(alloc);
    put_beside(alloc, &mut written, line, scale, diagram, base, shown)?;
    shapes.push(Shape::Plain(written))?;
    Ok(())
}

// Appends what is written at a row: at a terminal's first its name, at its trip the times.
fn put_beside(
    alloc: Global,
    figures: &mut Vec<Figure>,
    line: &Line,
    scale: Scale,
    diagram: &Diagram,
    base: u32,
    shown: &Row,
) -> Result<(), Memory>
    ensures { OnOk result (figures_seen figures.new.items
        ≡ figures_seen figures.old.items
        ++ beside line.now scale diagram.now base shown.now) }
{
    match shown.trace {
        Trace::Seen(place) => {
            if begins_terminal(shown.trace) {
                put_name(alloc, figures, line, shown, place.terminal, base)
            } else {
                Ok(())
            }
        }
        Trace::Trip(k) => put_trip(alloc, figures, line, scale, diagram, k, base),
        Trace::Lost(_) | Trace::Logic(_, _) | Trace::Key(_) => Ok(()),
    }
}

fn put_name(
    alloc: Global,
    figures: &mut Vec<Figure>,
    line: &Line,
    shown: &Row,
    k: u32,
    base: u32,
) -> Result<(), Memory>
    ensures { OnOk result (figures_seen figures.new.items
        ≡ figures_seen figures.old.items ++ name_drawn line.now shown.now k base) }
{
    let room = if shown.is_drawn { 190 } else { 0 };
    let y = base.saturating_sub(room).saturating_sub(60);
    let name = name_of_terminal(line, k);
    Ok(put_words(alloc, figures, Class::Terminal, (140, y), name)?)
}

// How much lies from the row above to the base of a row: before a terminal's first row also its
// name.
fn height_above(row: &Row) -> u32
    ensures { result ≡ height_above row.now }
{
    let name: u32 = if begins_terminal(row.trace) { 270 } else { 0 };
    let room = if row.is_drawn {
        room_above(row.trace)
    } else {
        0
    };
    name.saturating_add(room)
}

fn room_above(trace: Trace) -> u32
    ensures is { result ≡ room_above trace }
    ensures few { result ≤ 250 }
{
    match trace {
        Trace::Seen(_) | Trace::Lost(_) | Trace::Logic(_, _) => 190,
        Trace::Key(_) | Trace::Trip(_) => 250,
    }
}

fn height_below(trace: Trace) -> u32
    ensures { result ≡ height_below trace }
{
    match trace {
        Trace::Trip(_) => 180,
        Trace::Seen(_) | Trace::Lost(_) | Trace::Logic(_, _) | Trace::Key(_) => 0,
    }
}

fn begins_terminal(trace: Trace) -> bool
    ensures { result ≡ begins_terminal trace }
{
    match trace {
        Trace::Seen(place) => match place.element {
            Element::Z1 => true,
            Element::Z2 | Element::Rv | Element::Uv | Element::Cur => false,
        },
        Trace::Lost(_) | Trace::Logic(_, _) | Trace::Key(_) | Trace::Trip(_) => false,
    }
}
