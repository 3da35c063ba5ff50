//! Slips in one record of scripts, and at one place of a TOML document.

ghost use Rattle.std.specs.Prelude.{◌≡◌, ◌+◌, ◌<◌, length};
ghost use Rattle.call_refused.specs.words.Slips.{document_slip_of, has_between as has_between_of};
ghost use Rattle.call_refused.specs.words.Slips.{is_between as is_between_of, is_only_commas, record_slip_of};
ghost use Rattle.base_text.specs.store.Number.{is_digit};

use crate::places::has_byte;

/// What is wrong at one place.
#[derive(Clone, Copy, Drop)]
pub enum Slip {
    /// A record that begins as a comment does.
    Comment,
    /// A record of commas alone.
    OnlyCommas,
    /// A blank in a record.
    Blank,
    /// A point between digits in a record.
    Point,
    /// A semicolon in a TOML document, where none may stand.
    Semicolon,
    /// A comma between digits in a TOML document.
    DecimalComma,
}

/// The first slip that a record shows, where it shows one.
pub fn record_slip(row: &[u8]) -> Option<Slip>
    ensures { result ≡ record_slip_of row.now }
{
    if row.starts_with(b"#") {
        Some(Slip::Comment)
    } else if is_only_commas(row) {
        Some(Slip::OnlyCommas)
    } else if has_byte(b' ', row) {
        Some(Slip::Blank)
    } else if has_between(b'.', row) {
        Some(Slip::Point)
    } else {
        None
    }
}

fn is_only_commas(row: &[u8]) -> bool
    ensures { result ≡ is_only_commas row.now }
{
    row.iter().all(|b| *b == b',')
}

/// The slip that a line of a TOML document shows, where it shows one.
pub fn document_slip(line: &[u8]) -> Option<Slip>
    ensures { result ≡ document_slip_of line.now }
{
    if has_byte(b';', line) {
        Some(Slip::Semicolon)
    } else if has_between(b',', line) {
        Some(Slip::DecimalComma)
    } else {
        None
    }
}

// Whether a byte stands between two digits.
fn has_between(byte: u8, line: &[u8]) -> bool
    ensures { result ≡ has_between_of byte line.now }
{
    let mut found = false;
    for k in 0..line.len().saturating_sub(2) {
        found = is_between(byte, line, k) || found;
    }
    found
}

fn is_between(byte: u8, line: &[u8], k: usize) -> bool
    requires { k + 2 < length line.now }
    ensures { result ≡ is_between_of byte line.now k }
{
    is_digit(line[k]) && line[k + 1] == byte && is_digit(line[k + 2])
}

fn is_digit(b: u8) -> bool
    ensures { result ≡ is_digit b }
{
    b'0' <= b && b <= b'9'
}
