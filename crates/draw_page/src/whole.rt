//! The whole page.

ghost use Rattle.std.specs.Prelude.{◌≡◌, IfOk};
ghost use Rattle.draw_page.specs.Pages.{answers_html, body_html, charset_html, grounds_html, head_html};
ghost use Rattle.draw_page.specs.Pages.{main_html, page_of, viewport_html};

use crate::choice::failing;
use crate::elements::words_in;
use crate::fault::faults;
use crate::files::files;
use crate::hatching::patterns;
use crate::heading::header;
use crate::matrices::matrix;
use crate::opens::undecided;
use crate::page::Page;
use crate::parts::{around, joined};
use crate::sheet::sheet;
use crate::signing::signing;
use crate::times::times;
use base_markup::html::{Attribute, Document, Html, Key, Tag, Void};
use std::alloc::{AllocError, Global};

/// The text of the page.
pub fn page_text(alloc: Global, page: &Page) -> Result<Vec<u8>, AllocError>
    ensures { IfOk result (λ text. text.items ≡ page_of page.now) }
{
    let document = page_document(alloc, page)?;
    Ok(document.text)
}

/// The page as a document, which has one root by its type.
#[tactic(auto, unfolding(crate::specs::Pages::page_of))]
pub fn page_document(alloc: Global, page: &Page) -> Result<Document, AllocError>
    ensures { IfOk result (λ document. document.text.items ≡ page_of page.now) }
{
    let head = head(alloc, page)?;
    let body = body(alloc, page)?;
    Document::new(alloc, &head, &body)
}

fn head(alloc: Global, page: &Page) -> Result<Html, AllocError>
    ensures { IfOk result (λ html. html.text.items ≡ head_html page.now) }
{
    let metas = joined(charset(alloc), viewport(alloc));
    let title = words_in(alloc, Tag::Title, page.title.as_slice());
    joined(joined(metas, title), sheet(alloc, page))
}

fn charset(alloc: Global) -> Result<Html, AllocError>
    ensures { IfOk result (λ html. html.text.items ≡ charset_html) }
{
    let charset = Attribute {
        key: Key::Charset,
        words: b"utf-8",
    };
    Html::void(alloc, Void::Meta, &[charset])
}

fn viewport(alloc: Global) -> Result<Html, AllocError>
    ensures { IfOk result (λ html. html.text.items ≡ viewport_html) }
{
    let name = Attribute {
        key: Key::Name,
        words: b"viewport",
    };
    let content = Attribute {
        key: Key::Content,
        words: b"width=device-width, initial-scale=1",
    };
    Html::void(alloc, Void::Meta, &[name, content])
}

// The hatchings, and all sections.
fn body(alloc: Global, page: &Page) -> Result<Html, AllocError>
    ensures { IfOk result (λ html. html.text.items ≡ body_html page.now) }
{
    let main = around(alloc, Tag::Main, sections(alloc, page));
    joined(patterns(alloc), main)
}

fn sections(alloc: Global, page: &Page) -> Result<Html, AllocError>
    ensures { IfOk result (λ html. html.text.items ≡ main_html page.now) }
{
    joined(answers(alloc, page), grounds(alloc, page))
}

// What was asked and what was found, with lines to sign beside the verdicts.
fn answers(alloc: Global, page: &Page) -> Result<Html, AllocError>
    ensures { IfOk result (λ html. html.text.items ≡ answers_html page.now) }
{
    let verdicts = joined(header(alloc, page), matrix(alloc, page));
    let signed = joined(verdicts, signing(alloc, page));
    let failing = joined(signed, failing(alloc, page));
    joined(failing, undecided(alloc, page))
}

// What it rests on.
fn grounds(alloc: Global, page: &Page) -> Result<Html, AllocError>
    ensures { IfOk result (λ html. html.text.items ≡ grounds_html page.now) }
{
    let faults = joined(times(alloc, page), faults(alloc, page));
    joined(faults, files(alloc, page))
}
