//! The title block: the files that were read, with their digests, the date, and what made the page.

ghost use Rattle.std.specs.Prelude.{◌≡◌, IfOk};
ghost use Rattle.std.specs.List.{flat_map};
ghost use Rattle.draw_page.specs.Blocks.{block_html, block_row_html, block_rows_html, date_html};
ghost use Rattle.draw_page.specs.Blocks.{source_row_html};

use crate::bare::bare_cell;
use crate::elements::{cell, row_head, table, words_in};
use crate::page::{FileText, Page};
use crate::parts::{around, joined};
use base_markup::html::{Html, Tag};
use std::alloc::{AllocError, Global};

/// The title block.
pub fn block(alloc: Global, page: &Page) -> Result<Html, AllocError>
    ensures { IfOk result (λ html. html.text.items ≡ block_html page.now) }
{
    let no_head = Ok(Html::new(alloc));
    table(alloc, b"block", no_head, rows(alloc, page))
}

fn rows(alloc: Global, page: &Page) -> Result<Html, AllocError>
    ensures { IfOk result (λ html. html.text.items ≡ block_rows_html page.now) }
{
    let sources = source_rows(alloc, page.sources.as_slice());
    let dated = joined(sources, date(alloc, &page.date));
    joined(dated, block_row(alloc, b"Made by", page.made.as_slice()))
}

fn source_rows(alloc: Global, sources: &[FileText]) -> Result<Html, AllocError>
    ensures { IfOk result (λ html. html.text.items ≡ flat_map source_row_html sources.now) }
{
    let mut made = Ok(Html::new(alloc));
    for source in sources {
        made = joined(made, source_row(alloc, source));
    }
    made
}

// A file that was read, and its digest.
fn source_row(alloc: Global, source: &FileText) -> Result<Html, AllocError>
    ensures { IfOk result (λ html. html.text.items ≡ source_row_html source.now) }
{
    let name = row_head(alloc, Html::words(alloc, source.name.as_slice()));
    let digest = words_in(alloc, Tag::Code, source.sha256.as_slice());
    let hash = cell(alloc, b"hash", b"SHA-256 ", digest);
    around(alloc, Tag::Row, joined(name, hash))
}

// The date, if there is one.
fn date(alloc: Global, date: &Option<Vec<u8>>) -> Result<Html, AllocError>
    ensures { IfOk result (λ html. html.text.items ≡ date_html date.now) }
{
    match date {
        Some(date) => block_row(alloc, b"Date", date.as_slice()),
        None => Ok(Html::new(alloc)),
    }
}

fn block_row(alloc: Global, label: &[u8], words: &[u8]) -> Result<Html, AllocError>
    ensures { IfOk result (λ html. html.text.items ≡ block_row_html label.now words.now) }
{
    let label = row_head(alloc, Html::words(alloc, label));
    let said = bare_cell(alloc, b"said", Html::words(alloc, words));
    around(alloc, Tag::Row, joined(label, said))
}
