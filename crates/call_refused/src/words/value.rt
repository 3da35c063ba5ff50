//! The value that stands at a key, as it is written.

ghost use Rattle.std.specs.Prelude.{◌≤◌, length};

use crate::places::first_line;

/// The value of the key or the item that stands at the place: a text without its quotes, else what
/// stands before a comma, a bracket or the end of the line.
pub fn value_at(bytes: &[u8], at: usize) -> &[u8]
    requires { at ≤ length bytes.now }
{
    let line = first_line(&bytes[at..]);
    let value = trimmed(behind_equals(line));
    match value.first() {
        Some(quote) if *quote == b'"' || *quote == b'\'' => before(&value[1..], *quote),
        _ => bare(value),
    }
}

// What stands behind the equals sign of a key; an item has none before its quote.
fn behind_equals(line: &[u8]) -> &[u8] {
    for i in 0..line.len() {
        match line[i] {
            b'=' => return &line[i + 1..],
            b'"' | b'\'' if i == 0 => return line,
            b',' | b']' | b'}' => return line,
            _ => {}
        }
    }
    line
}

// What stands behind the blanks.
fn trimmed(line: &[u8]) -> &[u8] {
    for start in 0..line.len() {
        if line[start] != b' ' && line[start] != b'\t' {
            return &line[start..];
        }
    }
    b""
}

// What stands before a quote.
fn before(text: &[u8], quote: u8) -> &[u8] {
    for end in 0..text.len() {
        if text[end] == quote {
            return &text[..end];
        }
    }
    text
}

// What stands before the end of a value without quotes.
fn bare(text: &[u8]) -> &[u8] {
    for end in 0..text.len() {
        if matches!(text[end], b',' | b'}' | b']' | b'#' | b' ' | b'\t') {
            return &text[..end];
        }
    }
    text
}

/// What is often written for a time, and is none.
#[derive(Clone, Copy)]
pub enum Habit {
    /// `+/-` or the sign of it, for `+-`.
    PlusMinus,
    /// `5-8 ms`, for `5 .. 8 ms`.
    Dash,
    /// A comma between two digits, for a point.
    Comma,
    /// `cycle`, for `cycles`.
    Cycle,
    /// A unit in capital letters.
    Capitals,
}

/// The habit that the text of a time shows, where it shows one.
pub fn habit_of(text: &[u8]) -> Option<Habit> {
    for i in 0..text.len() {
        let rest = &text[i..];
        if rest.starts_with(b"+/-") || rest.starts_with(b"\xc2\xb1") {
            return Some(Habit::PlusMinus);
        }
        if is_between_digits(b'-', rest) {
            return Some(Habit::Dash);
        }
        if is_between_digits(b',', rest) {
            return Some(Habit::Comma);
        }
        if rest == b"cycle".as_slice() {
            return Some(Habit::Cycle);
        }
        if matches!(rest[0], b'A'..=b'Z') {
            return Some(Habit::Capitals);
        }
    }
    None
}

// Whether the text begins with a digit, and has the byte and one more digit behind it, blanks aside.
fn is_between_digits(byte: u8, text: &[u8]) -> bool {
    if text.is_empty() || !is_digit(text) {
        return false;
    }
    let behind = trimmed(&text[1..]);
    if behind.is_empty() || behind[0] != byte {
        return false;
    }
    is_digit(trimmed(&behind[1..]))
}

/// Whether the text begins with a digit.
pub fn is_digit(text: &[u8]) -> bool {
    matches!(text.first(), Some(b'0'..=b'9'))
}
