//! The files that were judged, and the digests of all.

ghost use Rattle.std.specs.Prelude.{◌≡◌, IfOk};
ghost use Rattle.std.specs.List.{flat_map};
ghost use Rattle.draw_page.specs.Filed.{digest_row_html, file_html, file_row_html, files_html};
ghost use Rattle.draw_page.specs.Filed.{file_table_html, filed_meaning, hash_row_html};

use crate::anchor::Anchor;
use crate::bare::bare_cell;
use crate::elements::{columns, row_head, said_in, section, table, words_in};
use crate::page::{Digest, FileText, Page};
use crate::parts::{around, joined};
use base_markup::html::{Html, Tag};
use std::alloc::{AllocError, Global};

/// The section of the files: the digests, and each file in full.
pub fn files(alloc: Global, page: &Page) -> Result<Html, AllocError>
    ensures { IfOk result (λ html. html.text.items ≡ files_html page.now) }
{
    let (sources, files) = (page.sources.as_slice(), page.files.as_slice());
    let table = joined(meaning(alloc), file_table(alloc, page));
    let printed = joined(printed(alloc, sources), printed(alloc, files));
    section(alloc, Anchor::Files, b"Files", joined(table, printed))
}

#[tactic(auto, unfolding(crate::specs::Filed::filed_meaning))]
fn meaning(alloc: Global) -> Result<Html, AllocError>
    ensures { IfOk result (λ html. html.text.items ≡ filed_meaning) }
{
    said_in(
        alloc,
        Tag::Paragraph,
        b"small",
        b"First what was read, then the line and the scripts that it comes to, as they were judged. A digest is the SHA-256 of a file's bytes.",
    )
}

// The digests of what was read, of what was judged, and of what does not stand here.
fn file_table(alloc: Global, page: &Page) -> Result<Html, AllocError>
    ensures { IfOk result (λ html. html.text.items ≡ file_table_html page.now) }
{
    let head = columns(alloc, &[b"File", b"SHA-256"]);
    let sources = file_rows(alloc, page.sources.as_slice());
    let files = joined(sources, file_rows(alloc, page.files.as_slice()));
    let rows = joined(files, digest_rows(alloc, page.digests.as_slice()));
    table(alloc, b"files", head, rows)
}

fn file_rows(alloc: Global, files: &[FileText]) -> Result<Html, AllocError>
    ensures { IfOk result (λ html. html.text.items ≡ flat_map file_row_html files.now) }
{
    let mut made = Ok(Html::new(alloc));
    for file in files {
        made = joined(
            made,
            hash_row(alloc, file.name.as_slice(), file.sha256.as_slice()),
        );
    }
    made
}

fn digest_rows(alloc: Global, digests: &[Digest]) -> Result<Html, AllocError>
    ensures { IfOk result (λ html. html.text.items ≡ flat_map digest_row_html digests.now) }
{
    let mut made = Ok(Html::new(alloc));
    for digest in digests {
        made = joined(
            made,
            hash_row(alloc, digest.of.as_slice(), digest.sha256.as_slice()),
        );
    }
    made
}

fn hash_row(alloc: Global, name: &[u8], sha256: &[u8]) -> Result<Html, AllocError>
    ensures { IfOk result (λ html. html.text.items ≡ hash_row_html name.now sha256.now) }
{
    let name = row_head(alloc, Html::words(alloc, name));
    let hash = bare_cell(alloc, b"hash", words_in(alloc, Tag::Code, sha256));
    around(alloc, Tag::Row, joined(name, hash))
}

fn printed(alloc: Global, files: &[FileText]) -> Result<Html, AllocError>
    ensures { IfOk result (λ html. html.text.items ≡ flat_map file_html files.now) }
{
    let mut made = Ok(Html::new(alloc));
    for file in files {
        made = joined(made, one_file(alloc, file));
    }
    made
}

fn one_file(alloc: Global, file: &FileText) -> Result<Html, AllocError>
    ensures { IfOk result (λ html. html.text.items ≡ file_html file.now) }
{
    let name = words_in(alloc, Tag::Heading3, file.name.as_slice());
    let text = words_in(alloc, Tag::Preformatted, file.text.as_slice());
    around(alloc, Tag::Section, joined(name, text))
}
