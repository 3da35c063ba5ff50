//! The numbers of a line, read.

ghost use Rattle.std.specs.Prelude.{◌≡◌, ◌≢◌, ◌<◌, ◌^◌, ℕ, decimal, MatchOption};
ghost use Rattle.base_text.specs.lines.Named.{named};
ghost use Rattle.cert_settle.specs.Grammar.{two_numbers as two_numbers_text};

use base_text::lines::{after, after_name, find_byte, number_in};
use model_line::Name;

/// Where this is the line of this word and name, and of a number: the number.
pub(crate) fn number_after(bytes: &[u8], word: &[u8], name: Name) -> Option<u32>
    ensures { MatchOption result
        ((n : ℕ) → n < 2 ^ 32 → bytes.now ≢ named word.now name (decimal n))
        (λ n. (n < 2 ^ 32) × (bytes.now ≡ named word.now name (decimal n))) }
{
    let text = after_name(bytes, word, name.bytes())?;
    number_in(text)
}

/// Where this is the text of two numbers: both.
pub(crate) fn two_numbers(text: &[u8]) -> Option<(u32, u32)>
    ensures { MatchOption result
        ((n m : ℕ) → n < 2 ^ 32 → m < 2 ^ 32 → text.now ≢ two_numbers_text n m)
        (λ at. (at.0 < 2 ^ 32) × ((at.1 < 2 ^ 32) × (text.now ≡ two_numbers_text at.0 at.1))) }
{
    let end = find_byte(text, b' ');
    let first = number_in(&text[..end])?;
    let last = after(&text[end..], b" ")?;
    let second = number_in(last)?;
    Some((first, second))
}

/// Where this is the line of this word and name, and of two numbers: both.
pub(crate) fn numbers_after(bytes: &[u8], word: &[u8], name: Name) -> Option<(u32, u32)>
    ensures { MatchOption result
        ((n m : ℕ) → n < 2 ^ 32 → m < 2 ^ 32 →
        bytes.now ≢ named word.now name (two_numbers_text n m))
        (λ at. (at.0 < 2 ^ 32) × ((at.1 < 2 ^ 32)
        × (bytes.now ≡ named word.now name (two_numbers_text at.0 at.1)))) }
{
    let text = after_name(bytes, word, name.bytes())?;
    two_numbers(text)
}
