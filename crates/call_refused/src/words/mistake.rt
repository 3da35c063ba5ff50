//! Mistakes that the bytes of a file show.

ghost use Rattle.std.specs.Prelude.{◌≡◌};
ghost use Rattle.call_refused.specs.words.Mistakes.{is_utf16, has_mark, is_parted_by, records_mistake};
ghost use Rattle.call_refused.specs.words.Mistakes.{document_mistake};
ghost use Rattle.call_refused.specs.words.Mistakes.{mistake_of as mistake_in};

use crate::places::{first_line, has_byte};

/// What is wrong with the whole file.
#[derive(Clone, Copy, Drop)]
pub enum Mistake {
    /// The text is UTF-16, as some editors save it.
    Utf16,
    /// A byte order mark stands before the text.
    ByteOrderMark,
    /// Each record stands within quotes, as one field.
    QuotedLines,
    /// Fields are parted by semicolons.
    Semicolons,
    /// Fields are parted by tabs.
    Tabs,
    /// A TOML document stands where scripts are wanted.
    TomlForScripts,
    /// Scripts stand where a TOML document is wanted.
    ScriptsForToml,
}

/// What the file has to be.
#[derive(Clone, Copy, Drop)]
pub enum Wanted {
    /// A TOML document: a line or a study.
    Document,
    /// Records of scripts.
    Records,
}

/// The first mistake that the bytes show, where they show one.
pub fn mistake_of(wanted: Wanted, bytes: &[u8]) -> Option<Mistake>
    ensures { result ≡ mistake_in wanted bytes.now }
{
    if is_utf16(bytes) {
        Some(Mistake::Utf16)
    } else if has_mark(bytes) {
        Some(Mistake::ByteOrderMark)
    } else {
        match wanted {
            Wanted::Records => records_mistake(bytes),
            Wanted::Document => document_mistake(bytes),
        }
    }
}

fn records_mistake(bytes: &[u8]) -> Option<Mistake>
    ensures { result ≡ records_mistake bytes.now }
{
    if bytes.starts_with(b"\"script,") {
        Some(Mistake::QuotedLines)
    } else if is_parted_by(b';', bytes) {
        Some(Mistake::Semicolons)
    } else if is_parted_by(b'\t', bytes) {
        Some(Mistake::Tabs)
    } else if is_parted_by(b'=', bytes) {
        Some(Mistake::TomlForScripts)
    } else {
        None
    }
}

fn document_mistake(bytes: &[u8]) -> Option<Mistake>
    ensures { result ≡ document_mistake bytes.now }
{
    if bytes.starts_with(b"script,") {
        Some(Mistake::ScriptsForToml)
    } else {
        None
    }
}

fn is_utf16(bytes: &[u8]) -> bool
    ensures { result ≡ is_utf16 bytes.now }
{
    bytes.starts_with(b"\xff\xfe") || bytes.starts_with(b"\xfe\xff")
}

fn has_mark(bytes: &[u8]) -> bool
    ensures { result ≡ has_mark bytes.now }
{
    bytes.starts_with(b"\xef\xbb\xbf")
}

fn is_parted_by(byte: u8, bytes: &[u8]) -> bool
    ensures { result ≡ is_parted_by byte bytes.now }
{
    let line = first_line(bytes);
    has_byte(byte, line) && !has_byte(b',', line)
}
