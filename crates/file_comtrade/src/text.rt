//! Lines and fields.

ghost use Rattle.std.specs.Prelude.{◌≡◌, ◌==◌, IfOk, MatchOption, map};
ghost use Rattle.std.specs.List.{position_or_len, before_first};
ghost use Rattle.file_comtrade.specs.Text.{trimmed, lines_of, fields_of, cut_at, unmarked};

use base_text::lines::find_byte;
use std::alloc::{AllocError, Global};

/// The bytes between the blanks around them.
pub fn trimmed(bytes: &[u8]) -> &[u8]
    ensures { result.now ≡ trimmed bytes.now }
{
    bytes.trim_ascii()
}

/// The text behind the byte order mark that may stand before it.
pub fn unmarked(text: &[u8]) -> &[u8]
    ensures { result.now ≡ unmarked text.now }
{
    match text {
        [0xEF, 0xBB, 0xBF, rest @ ..] => rest,
        _ => text,
    }
}

/// The lines of a text; what follows the last line feed is a line too.
pub fn lines(alloc: Global, text: &[u8]) -> Result<Vec<&[u8]>, AllocError>
    ensures { IfOk result (λ v. map (λ l. l.now) v.items ≡ lines_of text.now) }
{
    text.split(|byte| *byte == b'\n').collect(alloc)
}

/// The fields of a line, between its commas, with the blanks around each taken off.
pub fn fields(alloc: Global, line: &[u8]) -> Result<Vec<&[u8]>, AllocError>
    ensures { IfOk result (λ v. map (λ f. f.now) v.items ≡ fields_of line.now) }
{
    line.split(|byte| *byte == b',')
        .map(|field| trimmed(field))
        .collect(alloc)
}

/// What stands before the first such byte, and what behind it.
pub fn cut(bytes: &[u8], at: u8) -> Option<(&[u8], &[u8])>
    ensures { MatchOption result (cut_at at bytes.now ≡ None)
        (λ parts. cut_at at bytes.now ≡ Some (parts.0.now, parts.1.now)) }
{
    let place = find_byte(bytes, at);
    if place < bytes.len() {
        Some((&bytes[..place], &bytes[place + 1..]))
    } else {
        None
    }
}

/// What stands before the first such byte, or everything.
pub fn before_byte(bytes: &[u8], byte: u8) -> &[u8]
    ensures { result.now ≡ before_first (λ other. other == byte) bytes.now }
{
    let place = find_byte(bytes, byte);
    if place < bytes.len() {
        &bytes[..place]
    } else {
        bytes
    }
}
