//! Cells that say by themselves what they are.

ghost use Rattle.std.specs.Prelude.{◌≡◌, ℕ, List, IfOk};
ghost use Rattle.draw_page.specs.Bare.{bare_cell_html};

use crate::parts::classed_around;
use base_markup::html::{Html, Tag};
use std::alloc::{AllocError, Global};

/// A cell of a class, without a label.
pub fn bare_cell(
    alloc: Global,
    class: &[u8],
    inside: Result<Html, AllocError>,
) -> Result<Html, AllocError>
    ensures { (t : List ℕ) → IfOk inside (λ html. html.text.items ≡ t)
        → IfOk result (λ html. html.text.items ≡ bare_cell_html class.now t) }
{
    classed_around(alloc, Tag::Cell, class, inside)
}
