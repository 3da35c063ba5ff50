//! Figures put into a list.

ghost use Rattle.std.specs.Prelude.{◌≡◌, ◌++◌, ◌∷◌, [], OnOk};
ghost use Rattle.draw_shapes.specs.Seen.{rectangle, line, text, figures_seen};

use crate::class::Class;
use crate::figure::{Figure, Label, Rectangle, Stroke};
use std::alloc::{AllocError, Global};

/// Appends a rectangle: its upper left corner, and its width and height.
pub fn put_rectangle(
    figures: &mut Vec<Figure>,
    class: Class,
    corner: (u32, u32),
    size: (u32, u32),
) -> Result<(), AllocError>
    ensures { OnOk result (figures_seen figures.new.items
        ≡ figures_seen figures.old.items
        ++ rectangle class corner.0 corner.1 size.0 size.1 ∷ []) }
{
    let (x, y) = corner;
    let (width, height) = size;
    let rectangle = Rectangle {
        class,
        x,
        y,
        width,
        height,
    };
    figures.push(Figure::Rectangle(rectangle))?;
    Ok(())
}

/// Appends a line between two points.
pub fn put_line(
    figures: &mut Vec<Figure>,
    class: Class,
    from: (u32, u32),
    to: (u32, u32),
) -> Result<(), AllocError>
    ensures { OnOk result (figures_seen figures.new.items
        ≡ figures_seen figures.old.items ++ line class from.0 from.1 to.0 to.1 ∷ []) }
{
    let (x1, y1) = from;
    let (x2, y2) = to;
    let stroke = Stroke {
        class,
        x1,
        y1,
        x2,
        y2,
    };
    figures.push(Figure::Line(stroke))?;
    Ok(())
}

/// Appends words at a place.
pub fn put_text(
    figures: &mut Vec<Figure>,
    class: Class,
    at: (u32, u32),
    words: Vec<u8>,
) -> Result<(), AllocError>
    ensures { OnOk result (figures_seen figures.new.items
        ≡ figures_seen figures.old.items ++ text class at.0 at.1 words.items ∷ []) }
{
    let (x, y) = at;
    figures.push(Figure::Text(Label { class, x, y, words }))?;
    Ok(())
}

/// Appends a copy of words at a place.
pub fn put_words(
    alloc: Global,
    figures: &mut Vec<Figure>,
    class: Class,
    at: (u32, u32),
    words: &[u8],
) -> Result<(), AllocError>
    ensures { OnOk result (figures_seen figures.new.items
        ≡ figures_seen figures.old.items ++ text class at.0 at.1 words.now ∷ []) }
{
    let copy = Vec::from_slice(alloc, words)?;
    put_text(figures, class, at, copy)
}
