//! The text of a drawing as SVG.

ghost use Rattle.std.specs.Prelude.{◌≡◌, ◌++◌, ◌/◌, codes, decimal, IfOk};
ghost use Rattle.draw_shapes.specs.Seen.{rectangle, line, text, figure_seen, figures_seen};
ghost use Rattle.draw_shapes.specs.Seen.{shape_seen};
ghost use Rattle.draw_shapes.specs.Seen.{shapes_seen, drawing_seen};
ghost use Rattle.draw_shapes.specs.Svg.{figure_text, figures_text, group_text, shape_text};
ghost use Rattle.draw_shapes.specs.Svg.{description_text, inside_text, shapes_text, svg_of, title_text};

use crate::figure::{Figure, Label, Rectangle, Stroke};
use crate::shape::{Drawing, Shape};
use crate::style::{hatchings, sheet};
use base_markup::svg::{Key, Markup, Tag, tenths, words};
use itoa::Buffer;
use std::alloc::{AllocError, Global};

/// A drawing as a whole SVG document, which says in these words what made it.
#[tactic(auto, unfolding(crate::specs::Svg::svg_of))]
pub fn svg(alloc: Global, drawing: &Drawing, made: &[u8]) -> Result<Markup, AllocError>
    ensures { IfOk result (λ markup.
        markup.text.items ≡ svg_of made.now (drawing_seen drawing.now)) }
{
    let height = number(alloc, drawing.height / 10)?;
    let mut view = Vec::from_slice(alloc, b"0 0 1000 ")?;
    view.extend_from_slice(height.as_slice())?;
    let inside = inside(alloc, drawing, made)?;
    let root = Markup::element(
        alloc,
        Tag::Svg,
        &[
            words(Key::Xmlns, b"http://www.w3.org/2000/svg"),
            words(Key::ViewBox, view.as_slice()),
            words(Key::Width, b"1000"),
            words(Key::Height, height.as_slice()),
            words(Key::Role, b"img"),
        ],
        &inside,
    )?;
    ended(alloc, root)
}

// A number in decimal digits.
fn number(alloc: Global, number: u32) -> Result<Vec<u8>, AllocError>
    ensures { IfOk result (λ text. text.items ≡ decimal number) }
{
    Vec::from_slice(alloc, Buffer::new().format(number).as_bytes())
}

// What stands in the one element of a drawing.
fn inside(alloc: Global, drawing: &Drawing, made: &[u8]) -> Result<Markup, AllocError>
    ensures { IfOk result (λ markup.
        markup.text.items ≡ inside_text made.now (drawing_seen drawing.now)) }
{
    Markup::line_end(alloc)?
        .and(&title(alloc, drawing.title.as_slice())?)?
        .and(&description(alloc, made)?)?
        .and(&sheet(alloc)?)?
        .and(&hatchings(alloc)?)?
        .and(&shapes(alloc, drawing.shapes.as_slice())?)
}

/// Shapes, one after another.
pub fn shapes(alloc: Global, shapes: &[Shape]) -> Result<Markup, AllocError>
    ensures { IfOk result (λ markup.
        markup.text.items ≡ shapes_text (shapes_seen shapes.now)) }
{
    let mut drawn = Markup::new(alloc);
    for one in shapes {
        drawn = drawn.and(&shape(alloc, one)?)?;
    }
    Ok(drawn)
}

fn shape(alloc: Global, shape: &Shape) -> Result<Markup, AllocError>
    ensures { IfOk result (λ markup. markup.text.items ≡ shape_text (shape_seen shape.now)) }
{
    match shape {
        Shape::Plain(of) => figures(alloc, of.as_slice()),
        Shape::Titled(title, of) => group(alloc, title.as_slice(), of.as_slice()),
    }
}

// Figures under a title.
#[tactic(auto, unfolding(crate::specs::Svg::group_text))]
fn group(alloc: Global, words: &[u8], of: &[Figure]) -> Result<Markup, AllocError>
    ensures { IfOk result (λ markup.
        markup.text.items ≡ group_text words.now (figures_seen of.now)) }
{
    let inside = title(alloc, words)?.and(&figures(alloc, of)?)?;
    ended(alloc, Markup::element(alloc, Tag::Group, &[], &inside)?)
}

/// A title, as the first thing in an element.
#[tactic(auto, unfolding(crate::specs::Svg::title_text))]
pub fn title(alloc: Global, words: &[u8]) -> Result<Markup, AllocError>
    ensures { IfOk result (λ markup. markup.text.items ≡ title_text words.now) }
{
    let inside = Markup::words(alloc, words)?;
    ended(alloc, Markup::element(alloc, Tag::Title, &[], &inside)?)
}

// What made a drawing, in words that are not drawn.
#[tactic(auto, unfolding(crate::specs::Svg::description_text))]
fn description(alloc: Global, words: &[u8]) -> Result<Markup, AllocError>
    ensures { IfOk result (λ markup. markup.text.items ≡ description_text words.now) }
{
    let inside = Markup::words(alloc, words)?;
    ended(
        alloc,
        Markup::element(alloc, Tag::Description, &[], &inside)?,
    )
}

fn figures(alloc: Global, figures: &[Figure]) -> Result<Markup, AllocError>
    ensures { IfOk result (λ markup.
        markup.text.items ≡ figures_text (figures_seen figures.now)) }
{
    let mut drawn = Markup::new(alloc);
    for one in figures {
        drawn = drawn.and(&figure_markup(alloc, one)?)?;
    }
    Ok(drawn)
}

fn figure_markup(alloc: Global, figure: &Figure) -> Result<Markup, AllocError>
    ensures { IfOk result (λ markup. markup.text.items ≡ figure_text (figure_seen figure.now)) }
{
    match figure {
        Figure::Rectangle(of) => rectangle(alloc, *of),
        Figure::Line(of) => stroke(alloc, *of),
        Figure::Text(of) => label(alloc, of),
    }
}

/// A rectangle.
#[tactic(auto, unfolding(crate::specs::Svg::figure_text))]
pub fn rectangle(alloc: Global, of: Rectangle) -> Result<Markup, AllocError>
    ensures { IfOk result (λ markup. markup.text.items
        ≡ figure_text (rectangle of.class of.x of.y of.width of.height)) }
{
    let drawn = Markup::leaf(
        alloc,
        Tag::Rectangle,
        &[
            words(Key::Class, of.class.name()),
            tenths(Key::X, of.x),
            tenths(Key::Y, of.y),
            tenths(Key::Width, of.width),
            tenths(Key::Height, of.height),
        ],
    )?;
    ended(alloc, drawn)
}

#[tactic(auto, unfolding(crate::specs::Svg::figure_text))]
fn stroke(alloc: Global, of: Stroke) -> Result<Markup, AllocError>
    ensures { IfOk result (λ markup. markup.text.items
        ≡ figure_text (line of.class of.x1 of.y1 of.x2 of.y2)) }
{
    let drawn = Markup::leaf(
        alloc,
        Tag::Line,
        &[
            words(Key::Class, of.class.name()),
            tenths(Key::X1, of.x1),
            tenths(Key::Y1, of.y1),
            tenths(Key::X2, of.x2),
            tenths(Key::Y2, of.y2),
        ],
    )?;
    ended(alloc, drawn)
}

#[tactic(auto, unfolding(crate::specs::Svg::figure_text))]
fn label(alloc: Global, of: &Label) -> Result<Markup, AllocError>
    ensures { IfOk result (λ markup. markup.text.items
        ≡ figure_text (text of.now.class of.now.x of.now.y of.now.words.items)) }
{
    let inside = Markup::words(alloc, of.words.as_slice())?;
    let drawn = Markup::element(
        alloc,
        Tag::Text,
        &[
            words(Key::Class, of.class.name()),
            tenths(Key::X, of.x),
            tenths(Key::Y, of.y),
        ],
        &inside,
    )?;
    ended(alloc, drawn)
}

/// The same with the end of its line.
pub fn ended(alloc: Global, markup: Markup) -> Result<Markup, AllocError>
    ensures { IfOk result (λ ended. ended.text.items ≡ markup.text.items ++ codes "\n") }
{
    markup.and(&Markup::line_end(alloc)?)
}
