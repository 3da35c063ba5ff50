//! Drawings within the page: their looks and hatchings stand in the page once.

ghost use Rattle.std.specs.Prelude.{◌≡◌, ◌++◌, ℕ, List, IfOk};
ghost use Rattle.draw_shapes.specs.Seen.{drawing_seen};
ghost use Rattle.draw_page.specs.Figures.{drawing_html, drawn_inside, figure_html};

use crate::parts::classed_around;
use crate::words::words_of;
use base_markup::html::{Html, Tag};
use base_markup::svg::{Key, Markup, words};
use draw_shapes::{Drawing, shapes, title};
use itoa::Buffer;
use std::alloc::{AllocError, Global};

/// A drawing as a figure.
pub fn figure(alloc: Global, of: &Drawing) -> Result<Html, AllocError>
    ensures { IfOk result (λ html. html.text.items ≡ figure_html (drawing_seen of.now)) }
{
    classed_around(alloc, Tag::Figure, b"drawing", drawing(alloc, of))
}

/// A drawing as one element.
#[tactic(auto, unfolding(crate::specs::Figures::drawing_html))]
pub fn drawing(alloc: Global, of: &Drawing) -> Result<Html, AllocError>
    ensures { IfOk result (λ html. html.text.items ≡ drawing_html (drawing_seen of.now)) }
{
    let mut digits = Buffer::new();
    let height = digits.format(of.height / 10).as_bytes();
    let view = words_of(alloc, &[b"0 0 1000 ", height])?;
    let inside = inside(alloc, of)?;
    Html::drawing(
        alloc,
        &[
            words(Key::Xmlns, b"http://www.w3.org/2000/svg"),
            words(Key::ViewBox, view.as_slice()),
            words(Key::Width, b"1000"),
            words(Key::Height, height),
            words(Key::Role, b"img"),
        ],
        &inside,
    )
}

// What stands in the one element.
fn inside(alloc: Global, of: &Drawing) -> Result<Markup, AllocError>
    ensures { IfOk result (λ markup.
        markup.text.items ≡ drawn_inside (drawing_seen of.now)) }
{
    let title = behind(Markup::line_end(alloc), title(alloc, of.title.as_slice()));
    behind(title, shapes(alloc, of.shapes.as_slice()))
}

// One, and the other behind it.
fn behind(
    first: Result<Markup, AllocError>,
    second: Result<Markup, AllocError>,
) -> Result<Markup, AllocError>
    ensures { (t : List ℕ) → (u : List ℕ) → IfOk first (λ markup. markup.text.items ≡ t)
        → IfOk second (λ markup. markup.text.items ≡ u)
        → IfOk result (λ markup. markup.text.items ≡ t ++ u) }
{
    first?.and(&second?)
}
