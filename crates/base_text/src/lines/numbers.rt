//! Numbers in a row, each after one space, and the number that a text is of.

ghost use Rattle.std.specs.Prelude.{◌≡◌, ◌≢◌, ◌<◌, ◌^◌, ◌++◌, ℕ, decimal, MatchOption, OnOk};
ghost use Rattle.base_text.specs.lines.SpacedNumbers.{spaced};

use crate::lines::start::is;
use crate::store::number;
use itoa::Buffer;
use std::alloc::AllocError;

/// Appends a number after one space.
pub fn push_number(text: &mut Vec<u8>, number: u32) -> Result<(), AllocError>
    ensures { OnOk result (text.new.items ≡ text.old.items ++ spaced number) }
{
    let mut digits = Buffer::new();
    text.extend_from_slice(b" ")?;
    text.extend_from_slice(digits.format(number).as_bytes())
}

/// The number that this is the text of, in decimal digits.
pub fn number_in(text: &[u8]) -> Option<u32>
    ensures { MatchOption result
        ((n : ℕ) → n < 2 ^ 32 → text.now ≢ decimal n)
        (λ n. (n < 2 ^ 32) × (text.now ≡ decimal n)) }
{
    let n = number(text)?;
    let mut digits = Buffer::new();
    if is(digits.format(n).as_bytes(), text) {
        Some(n)
    } else {
        None
    }
}
