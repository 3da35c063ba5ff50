//! The hatchings of all drawings.

ghost use Rattle.std.specs.Prelude.{◌≡◌, IfOk};
ghost use Rattle.draw_page.specs.Figures.{patterns_html};

use crate::parts::hidden;
use base_markup::html::Html;
use base_markup::svg::{Key, words};
use draw_shapes::hatchings;
use std::alloc::{AllocError, Global};

/// The three hatchings, which are seen where drawings use them.
pub fn patterns(alloc: Global) -> Result<Html, AllocError>
    ensures { IfOk result (λ html. html.text.items ≡ patterns_html) }
{
    let drawn = Html::drawing(
        alloc,
        &[
            words(Key::Xmlns, b"http://www.w3.org/2000/svg"),
            words(Key::Width, b"0"),
            words(Key::Height, b"0"),
        ],
        &hatchings(alloc)?,
    );
    hidden(alloc, b"patterns", drawn)
}
