//! Elements as the page uses them.

ghost use Rattle.std.specs.Prelude.{◌≡◌, ◌∷◌, [], ℕ, List, IfOk, codes, map};
ghost use Rattle.std.specs.List.{flat_map};
ghost use Rattle.base_markup.specs.declared.html.attribute.Key.TheVariants as key;
ghost use Rattle.base_markup.specs.declared.html.tag.Tag.TheVariants as tag;
ghost use Rattle.base_markup.specs.{html.Content.element_text};
ghost use Rattle.draw_page.specs.Elements.{anchor_said, cell_html, column_html, columns_html};
ghost use Rattle.draw_page.specs.Elements.{head_cell_html, link_html, table_html};
ghost use Rattle.draw_page.specs.Elements.{number_cell_html, said_in_html, section_html};
ghost use Rattle.draw_page.specs.Elements.{shown_html, words_in_html};

use crate::anchor::{Anchor, anchor_words, target_words};
use crate::parts::{around, classed_around, element, joined, named};
use base_markup::html::{Attribute, Html, Key, Sign, Tag};
use std::alloc::{AllocError, Global};

/// An element with words in it.
pub fn words_in(alloc: Global, tag: Tag, words: &[u8]) -> Result<Html, AllocError>
    ensures { IfOk result (λ html. html.text.items ≡ words_in_html tag words.now) }
{
    around(alloc, tag, Html::words(alloc, words))
}

/// An element of a class with words in it.
pub fn said_in(alloc: Global, tag: Tag, class: &[u8], words: &[u8]) -> Result<Html, AllocError>
    ensures { IfOk result (λ html. html.text.items ≡ said_in_html tag class.now words.now) }
{
    classed_around(alloc, tag, class, Html::words(alloc, words))
}

/// These words; a dash where there are none.
#[tactic(auto, unfolding(crate::specs::Elements::shown_html))]
pub fn shown(alloc: Global, words: &[u8]) -> Result<Html, AllocError>
    ensures { IfOk result (λ html. html.text.items ≡ shown_html words.now) }
{
    match words {
        [] => Html::sign(alloc, Sign::Dash),
        [_, ..] => Html::words(alloc, words),
    }
}

/// A link within the page.
pub fn link(alloc: Global, anchor: Anchor, words: &[u8]) -> Result<Html, AllocError>
    ensures { IfOk result (λ html. html.text.items ≡ link_html anchor words.now) }
{
    let inside = Html::words(alloc, words);
    named(
        alloc,
        Tag::Link,
        Key::Href,
        target_words(alloc, anchor),
        inside,
    )
}

/// A section that a link may lead to.
pub fn section_at(
    alloc: Global,
    anchor: Anchor,
    inside: Result<Html, AllocError>,
) -> Result<Html, AllocError>
    ensures { (t : List ℕ) → IfOk inside (λ html. html.text.items ≡ t)
        → IfOk result (λ html. html.text.items
        ≡ element_text tag.Section ((key.Id, anchor_said anchor) ∷ []) t) }
{
    named(
        alloc,
        Tag::Section,
        Key::Id,
        anchor_words(alloc, anchor),
        inside,
    )
}

/// A section that a link may lead to, with its heading.
pub fn section(
    alloc: Global,
    anchor: Anchor,
    heading: &[u8],
    inside: Result<Html, AllocError>,
) -> Result<Html, AllocError>
    ensures { (t : List ℕ) → IfOk inside (λ html. html.text.items ≡ t)
        → IfOk result (λ html. html.text.items ≡ section_html anchor heading.now t) }
{
    let heading = words_in(alloc, Tag::Heading2, heading);
    section_at(alloc, anchor, joined(heading, inside))
}

/// The head of a row or of a column, by the scope.
pub fn head_cell(
    alloc: Global,
    scope: &[u8],
    inside: Result<Html, AllocError>,
) -> Result<Html, AllocError>
    ensures { (t : List ℕ) → IfOk inside (λ html. html.text.items ≡ t)
        → IfOk result (λ html. html.text.items ≡ head_cell_html scope.now t) }
{
    let scope = Attribute {
        key: Key::Scope,
        words: scope,
    };
    element(alloc, Tag::HeadCell, &[scope], inside)
}

/// The head of a row.
pub fn row_head(alloc: Global, inside: Result<Html, AllocError>) -> Result<Html, AllocError>
    ensures { (t : List ℕ) → IfOk inside (λ html. html.text.items ≡ t)
        → IfOk result (λ html. html.text.items ≡ head_cell_html (codes "row") t) }
{
    head_cell(alloc, b"row", inside)
}

/// A cell of a class, with a label that is seen in a narrow window alone.
pub fn cell(
    alloc: Global,
    class: &[u8],
    label: &[u8],
    inside: Result<Html, AllocError>,
) -> Result<Html, AllocError>
    ensures { (t : List ℕ) → IfOk inside (λ html. html.text.items ≡ t)
        → IfOk result (λ html. html.text.items ≡ cell_html class.now label.now t) }
{
    let label = said_in(alloc, Tag::Span, b"label", label);
    classed_around(alloc, Tag::Cell, class, joined(label, inside))
}

/// A cell with a number in words.
pub fn number_cell(alloc: Global, label: &[u8], words: &[u8]) -> Result<Html, AllocError>
    ensures { IfOk result (λ html. html.text.items ≡ number_cell_html label.now words.now) }
{
    cell(alloc, b"number", label, shown(alloc, words))
}

/// A cell with these words as a number.
pub fn number_in(
    alloc: Global,
    label: &[u8],
    words: Result<Vec<u8>, AllocError>,
) -> Result<Html, AllocError>
    ensures { (t : List ℕ) → IfOk words (λ text. text.items ≡ t)
        → IfOk result (λ html. html.text.items ≡ number_cell_html label.now t) }
{
    let words = words?;
    number_cell(alloc, label, words.as_slice())
}

/// The head of a column.
pub fn column(alloc: Global, words: &[u8]) -> Result<Html, AllocError>
    ensures { IfOk result (λ html. html.text.items ≡ column_html words.now) }
{
    head_cell(alloc, b"col", Html::words(alloc, words))
}

/// The heads of the columns of a table.
pub fn columns(alloc: Global, all: &[&[u8]]) -> Result<Html, AllocError>
    ensures { IfOk result (λ html. html.text.items
        ≡ columns_html (map (λ words. words.now) all.now)) }
{
    let row = around(alloc, Tag::Row, heads(alloc, all));
    around(alloc, Tag::TableHead, row)
}

fn heads(alloc: Global, all: &[&[u8]]) -> Result<Html, AllocError>
    ensures { IfOk result (λ html. html.text.items
        ≡ flat_map column_html (map (λ words. words.now) all.now)) }
{
    let mut made = Html::new(alloc);
    for words in all {
        made = made.and(&column(alloc, words)?)?;
    }
    Ok(made)
}

/// A table of a class: its head and its rows. It scrolls by itself where it is too wide.
pub fn table(
    alloc: Global,
    class: &[u8],
    head: Result<Html, AllocError>,
    rows: Result<Html, AllocError>,
) -> Result<Html, AllocError>
    ensures { (h r : List ℕ) → IfOk head (λ html. html.text.items ≡ h)
        → IfOk rows (λ html. html.text.items ≡ r)
        → IfOk result (λ html. html.text.items ≡ table_html class.now h r) }
{
    let all = joined(head, around(alloc, Tag::TableBody, rows));
    let table = classed_around(alloc, Tag::Table, class, all);
    classed_around(alloc, Tag::Division, b"wide", table)
}
