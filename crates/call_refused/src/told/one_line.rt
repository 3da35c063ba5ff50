//! One line of a place and of what is wrong there.

ghost use Rattle.std.specs.Prelude.{◌≡◌, ◌≤◌, ◌<◌, ◌++◌, IfOk, OnOk, length, map};
ghost use Rattle.call_refused.specs.told.Told.{IsToldAt, IsToldOn, is_control, within_line, place_text};

use crate::places::{column, line_number};
use base_memory::Memory;
use base_text::pieces::{push_pieces, text_of};
use itoa::Buffer;
use std::alloc::Global;

/// The line that tells these words of the place in the file of this name: first the rule, then the
/// pieces behind it.
pub fn told(
    alloc: Global,
    name: &str,
    bytes: &[u8],
    at: usize,
    rule: &str,
    more: &[&[u8]],
) -> Result<Vec<u8>, Memory>
    requires within { at ≤ length bytes.now }
    requires some { 0 < length rule.now }
    ensures told { IfOk result (λ text. IsToldAt name.now bytes.now text.items) }
    ensures on { IfOk result (λ text. IsToldOn name.now bytes.now at text.items) }
{
    let mut text = Vec::new(alloc);
    push_place(&mut text, name, bytes, at)?;
    push_within(&mut text, rule.as_bytes())?;
    push_within(&mut text, &text_of(alloc, more)?)?;
    text.push(b'\n')?;
    Ok(text)
}

/// Appends `FILE:LINE:COLUMN: `.
pub fn push_place(text: &mut Vec<u8>, name: &str, bytes: &[u8], at: usize) -> Result<(), Memory>
    requires { at ≤ length bytes.now }
    ensures { OnOk result
        (text.new.items ≡ text.old.items ++ place_text name.now bytes.now at) }
{
    let mut line = Buffer::new();
    let mut place = Buffer::new();
    push_within(text, name.as_bytes())?;
    push_pieces(
        text,
        &[
            b":",
            line.format(line_number(bytes, at)).as_bytes(),
            b":",
            place.format(column(bytes, at)).as_bytes(),
            b": ",
        ],
    )
}

/// Appends the bytes, as they may stand in a line.
pub fn push_within(text: &mut Vec<u8>, bytes: &[u8]) -> Result<(), Memory>
    ensures { OnOk result (text.new.items ≡ text.old.items ++ map within_line bytes.now) }
{
    for byte in bytes {
        text.push(within_line(*byte))?;
    }
    Ok(())
}

// A byte as it may stand in a line.
fn within_line(byte: u8) -> u8
    ensures { result ≡ within_line byte }
{
    if is_control(byte) { b'?' } else { byte }
}

fn is_control(byte: u8) -> bool
    ensures { result ≡ is_control byte }
{
    byte < 32 || byte == 127
}
