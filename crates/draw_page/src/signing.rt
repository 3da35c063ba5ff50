//! What is signed: the files by their digests, and how their obligations stand; and lines to sign.

ghost use Rattle.std.specs.Prelude.{◌≡◌, IfOk, take};
ghost use Rattle.std.specs.List.{flat_map};
ghost use Rattle.draw_page.specs.Signing.{line_html, lines_html, short_digest, signed_html, signed_said};
ghost use Rattle.draw_page.specs.Signing.{signing_html, standing_said};

use crate::anchor::Anchor;
use crate::elements::{section, words_in};
use crate::page::{Counts, FileText, Page};
use crate::parts::{around, classed_around, joined, text_of};
use crate::words::words_of;
use base_markup::html::{Html, Tag};
use itoa::Buffer;
use std::alloc::{AllocError, Global};

/// The section to sign.
pub fn signing(alloc: Global, page: &Page) -> Result<Html, AllocError>
    ensures { IfOk result (λ html. html.text.items ≡ signing_html page.now) }
{
    let files = all_signed(alloc, page.sources.as_slice());
    let words = text_of(alloc, standing_words(alloc, page.counts));
    let standing = around(alloc, Tag::Paragraph, words);
    let all = joined(joined(files, standing), lines(alloc));
    section(alloc, Anchor::Signature, b"Signature", all)
}

fn all_signed(alloc: Global, files: &[FileText]) -> Result<Html, AllocError>
    ensures { IfOk result (λ html. html.text.items ≡ flat_map signed_html files.now) }
{
    let mut made = Ok(Html::new(alloc));
    for file in files {
        made = joined(made, signed(alloc, file));
    }
    made
}

fn signed(alloc: Global, file: &FileText) -> Result<Html, AllocError>
    ensures { IfOk result (λ html. html.text.items ≡ signed_html file.now) }
{
    let words = text_of(alloc, signed_words(alloc, file));
    around(alloc, Tag::Paragraph, words)
}

#[tactic(auto, unfolding(crate::specs::Signing::signed_said))]
fn signed_words(alloc: Global, file: &FileText) -> Result<Vec<u8>, AllocError>
    ensures { IfOk result (λ text. text.items ≡ signed_said file.now) }
{
    words_of(
        alloc,
        &[
            b"For ",
            file.name.as_slice(),
            b", whose SHA-256 begins with ",
            begun(file),
            b".",
        ],
    )
}

/// A digest by its first 16 digits.
pub fn begun(file: &FileText) -> &[u8]
    ensures { result.now ≡ short_digest file.now }
{
    let digits = file.sha256.as_slice();
    if digits.len() <= 16 {
        digits
    } else {
        &digits[..16]
    }
}

#[tactic(auto, unfolding(crate::specs::Signing::standing_said))]
fn standing_words(alloc: Global, counts: Counts) -> Result<Vec<u8>, AllocError>
    ensures { IfOk result (λ text. text.items ≡ standing_said counts) }
{
    let (mut held, mut fails) = (Buffer::new(), Buffer::new());
    let (mut every, mut open) = (Buffer::new(), Buffer::new());
    words_of(
        alloc,
        &[
            b"Obligations held: ",
            held.format(counts.held).as_bytes(),
            b"; failing for some choice: ",
            fails.format(counts.fails).as_bytes(),
            b", of these for every choice: ",
            every.format(counts.every).as_bytes(),
            b"; open: ",
            open.format(counts.undecided).as_bytes(),
            b".",
        ],
    )
}

// Lines to write on.
#[tactic(auto, unfolding(crate::specs::Signing::lines_html))]
fn lines(alloc: Global) -> Result<Html, AllocError>
    ensures { IfOk result (λ html. html.text.items ≡ lines_html) }
{
    let two = joined(line(alloc, b"Name"), line(alloc, b"Date"));
    let three = joined(two, line(alloc, b"Signature"));
    classed_around(alloc, Tag::Division, b"lines", three)
}

fn line(alloc: Global, words: &[u8]) -> Result<Html, AllocError>
    ensures { IfOk result (λ html. html.text.items ≡ line_html words.now) }
{
    around(alloc, Tag::Division, words_in(alloc, Tag::Span, words))
}
