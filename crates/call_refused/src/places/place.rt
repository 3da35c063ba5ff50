//! The line and the column of a byte.

ghost use Rattle.std.specs.Prelude.{◌≡◌, ◌≤◌, ◌+◌, length};
ghost use Rattle.call_refused.specs.places.Places.{line_number_of, before_in_line, column_of};

use crate::places::bytes::first_line;

/// The number, from 1 on, of the line in which the byte stands.
pub fn line_number(bytes: &[u8], at: usize) -> usize
    requires { at ≤ length bytes.now }
    ensures { result ≡ line_number_of bytes.now at }
{
    bytes[..at].iter().filter(|b| **b == b'\n').count() + 1
}

/// The column, from 1 on, of the byte in its line, counted in bytes.
pub fn column(bytes: &[u8], at: usize) -> usize
    requires { at ≤ length bytes.now }
    ensures { result ≡ column_of bytes.now at }
{
    before_in_line(bytes, at) + 1
}

/// How many bytes stand before it in its line.
#[tactic(auto, unfolding(crate::specs::places::Places::before_in_line), using(crate::proofs::Lines::one_byte_more))]
pub fn before_in_line(bytes: &[u8], at: usize) -> usize
    requires { at ≤ length bytes.now }
    ensures is { result ≡ before_in_line bytes.now at }
    ensures within { result ≤ at }
{
    let mut count = 0;
    for i in 0..at {
        count = if bytes[i] == b'\n' { 0 } else { count + 1 };
    }
    count
}

/// The line in which the byte stands, without its end.
pub fn line_text(bytes: &[u8], at: usize) -> &[u8]
    requires { at ≤ length bytes.now }
    ensures { length result.now ≤ length bytes.now }
{
    first_line(&bytes[at - before_in_line(bytes, at)..])
}

/// Where the line of this number begins, the first being 1; the end of the bytes where there is none.
pub fn place_of_line(bytes: &[u8], number: usize) -> usize
    ensures { result ≤ length bytes.now }
{
    let mut left = number;
    for i in 0..bytes.len() {
        if left <= 1 {
            return i;
        }
        if bytes[i] == b'\n' {
            left -= 1;
        }
    }
    bytes.len()
}
