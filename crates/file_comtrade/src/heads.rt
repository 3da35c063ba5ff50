//! The line that names a section.

ghost use Rattle.std.specs.Prelude.{◌≡◌, IfOk, MatchOption, None, Some};
ghost use Rattle.file_comtrade.specs.Sections.{between_dashes, counted_head, head_named, head_of};
ghost use Rattle.file_comtrade.specs.{Text.cut_at};
ghost use Rattle.file_comtrade.specs.Sections.{is_binary, is_data, other_head, plain_head, word_in};

use crate::number::natural;
use crate::sections::Head;
use crate::text::{before_byte, cut, trimmed};
use base_records::is;
use std::alloc::{AllocError, Global};

// What stands between three dashes before it and behind it.
fn between_dashes(line: &[u8]) -> Option<&[u8]>
    ensures { MatchOption result (between_dashes line.now ≡ None)
        (λ inner. between_dashes line.now ≡ Some inner.now) }
{
    let n = line.len();
    if 6 <= n && is(&line[..3], b"---") && is(&line[n - 3..], b"---") {
        Some(&line[3..n - 3])
    } else {
        None
    }
}

// In small letters, with no blanks around.
fn word_in(alloc: Global, text: &[u8]) -> Result<Vec<u8>, AllocError>
    ensures { IfOk result (λ v. v.items ≡ word_in text.now) }
{
    trimmed(text).to_ascii_lowercase(alloc)
}

fn is_data(word: &[u8]) -> bool
    ensures { result ≡ is_data word.now }
{
    is(before_byte(word, b' '), b"dat")
}

fn is_binary(word: &[u8]) -> bool
    ensures { result ≡ is_binary word.now }
{
    is(word, b"dat binary") || is(word, b"dat binary32") || is(word, b"dat float32")
}

fn other_head(word: &[u8]) -> Head
    ensures { result ≡ other_head word.now }
{
    if is_data(word) {
        Head::Wrong
    } else {
        Head::Other
    }
}

fn plain_head(word: &[u8]) -> Head
    ensures { result ≡ plain_head word.now }
{
    if is(word, b"cfg") {
        Head::Config
    } else if is(word, b"dat ascii") {
        Head::Ascii
    } else {
        other_head(word)
    }
}

fn counted_head(word: &[u8], count: Option<u32>) -> Head
    ensures { result ≡ counted_head word.now count }
{
    match count {
        Some(n) => {
            if is_binary(word) {
                Head::Binary(n)
            } else {
                other_head(word)
            }
        }
        None => other_head(word),
    }
}

// What is named behind the first colon.
fn head_named(alloc: Global, text: &[u8]) -> Result<Head, AllocError>
    ensures { IfOk result (λ head. head ≡ head_named text.now (cut_at 58 text.now)) }
{
    match cut(text, b':') {
        None => {
            let word = word_in(alloc, text)?;
            Ok(plain_head(word.as_slice()))
        }
        Some((kind, count)) => {
            let word = word_in(alloc, kind)?;
            Ok(counted_head(word.as_slice(), natural(trimmed(count))))
        }
    }
}

/// What a line names, if it names a section.
#[tactic(auto, unfolding(crate::specs::Sections::head_of))]
pub fn head_of(alloc: Global, line: &[u8]) -> Result<Option<Head>, AllocError>
    ensures { IfOk result (λ head. head ≡ head_of line.now) }
{
    let Some(inner) = between_dashes(trimmed(line)) else {
        return Ok(None);
    };
    let Some((kind, named)) = cut(inner, b':') else {
        return Ok(None);
    };
    let word = word_in(alloc, kind)?;
    if is(word.as_slice(), b"file type") {
        let head = head_named(alloc, named)?;
        Ok(Some(head))
    } else {
        Ok(None)
    }
}
