//! The numbers of a `no`, read.

ghost use Rattle.std.specs.Prelude.{◌≡◌, ◌≢◌, ◌<◌, ◌^◌, ℕ, List, Some};
ghost use Rattle.std.specs.Prelude.{IfOk, MatchOption};
ghost use Rattle.std.specs.List.{All};
ghost use Rattle.cert_claims.specs.text.Grammar.{AreNumbers};
ghost use Rattle.base_text.specs.lines.SpacedNumbers.{numbers_text};
ghost use Rattle.cert_claims.specs.text.Numbers.{BeginsNumber};

use crate::text::print::push_numbers;
use base_text::lines::{after, find_byte, is};
use base_text::store::number;
use model_line::Memory;
use std::alloc::Global;

/// So many numbers, each after one space, if that is the text.
pub(crate) fn read_numbers(
    alloc: Global,
    text: &[u8],
    count: usize,
) -> Result<Option<Vec<u32>>, Memory>
    ensures { IfOk result (λ read. MatchOption read
        ((numbers : List ℕ) → AreNumbers count numbers → text.now ≢ numbers_text numbers)
        (λ numbers. AreNumbers count numbers.items × (text.now ≡ numbers_text numbers.items))) }
{
    let Some(numbers) = numbers_in(alloc, text, count)? else {
        return Ok(None);
    };
    let items = numbers.as_slice();
    each_fits(items);
    let mut printed = Vec::new(alloc);
    push_numbers(&mut printed, items)?;
    if numbers.len() == count && is(printed.as_slice(), text) {
        Ok(Some(numbers))
    } else {
        Ok(None)
    }
}

// Each number has 32 bits.
fn each_fits(numbers: &[u32])
    ensures { All (λ n. n < 2 ^ 32) numbers.now }
{}

// So many numbers at the head of the text: if that is the text of so many, it is these.
fn numbers_in(alloc: Global, text: &[u8], count: usize) -> Result<Option<Vec<u32>>, Memory>
    ensures { IfOk result (λ read. (numbers : List ℕ) → AreNumbers count numbers →
        text.now ≡ numbers_text numbers → MatchOption read ⊥ (λ vec. vec.items ≡ numbers)) }
{
    let mut numbers = Vec::new(alloc);
    let mut rest = text;
    for _i in 0..count {
        let Some((number, after)) = first_number(rest) else {
            return Ok(None);
        };
        numbers.push(number)?;
        rest = after;
    }
    Ok(Some(numbers))
}

// The number at the head of the text, after one space, and what follows it: if it is the text of
// numbers, it is the first.
fn first_number(text: &[u8]) -> Option<(u32, &[u8])>
    ensures { MatchOption result
        ((n : ℕ) (later : List ℕ) → ¬ (BeginsNumber text.now n later))
        (λ read. (n : ℕ) (later : List ℕ) → BeginsNumber text.now n later →
        (read.0 ≡ n) × (read.1.now ≡ later)) }
{
    let item = after(text, b" ")?;
    let end = find_byte(item, b' ');
    let value = number(&item[..end])?;
    Some((value, &item[end..]))
}
