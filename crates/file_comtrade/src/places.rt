//! Lines and columns of a text.

ghost use Rattle.std.specs.Prelude.{◌≡◌, ◌==◌, ◌≤◌, ◌-◌, length};
ghost use Rattle.std.specs.List.{after_first};
ghost use Rattle.file_comtrade.specs.Places.{behind, column_in, field_start, line_in};

use crate::text::{before_byte, unmarked};
use base_text::lines::find_byte;

#[tactic(auto, using(std::proofs::lemmas::List::drop_all))]
/// What stands behind the first such byte; nothing where there is none.
pub fn behind_first(text: &[u8], byte: u8) -> &[u8]
    ensures rest { result.now ≡ after_first (λ b. b == byte) text.now }
    ensures shorter { length result.now ≤ length text.now - 1 }
{
    match text.get(find_byte(text, byte) + 1..) {
        Some(rest) => rest,
        None => b"",
    }
}

// What stands behind so many of a byte.
fn behind(text: &[u8], byte: u8, count: usize) -> &[u8]
    ensures rest { result.now ≡ behind byte count text.now }
    ensures shorter { length result.now ≤ length text.now }
{
    let mut rest = text;
    for _i in 0..count {
        rest = behind_first(rest, byte);
    }
    rest
}

// The line with this index.
fn line_in(text: &[u8], k: usize) -> &[u8]
    ensures { result.now ≡ line_in text.now k }
{
    before_byte(behind(text, b'\n', k), b'\n')
}

fn field_start(line: &[u8], k: usize) -> usize
    ensures value { result ≡ field_start line.now k }
    ensures inside { result ≤ length line.now }
{
    line.len() - behind(line, b',', k).len()
}

/// The column at which a field of a line begins, by their indices; the first column has number 1.
pub fn column_in(text: &[u8], k: usize, field: usize) -> usize
    ensures { result ≡ column_in text.now k field }
{
    field_start(line_in(unmarked(text), k), field) + 1
}
