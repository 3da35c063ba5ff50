//! The words of a verdict, read.

ghost use Rattle.std.specs.Prelude.{◌≡◌, ◌≢◌, ℕ, List, IfOk, MatchOption};
ghost use Rattle.model_line.specs.Parameters.{param_count};
ghost use Rattle.cert_claims.specs.text.Grammar.{Verdict, HasNumbers, verdict_words, verdict_in};
ghost use Rattle.cert_claims.specs.text.Grammar.{AreNumbers, no_words};

use crate::text::claim::Claim;
use crate::text::numbers::read_numbers;
use base_text::lines::{after, is};
use model_line::{Line, Memory};
use std::alloc::Global;

/// The verdict of these words.
pub(crate) fn read_words(alloc: Global, line: &Line, words: &[u8]) -> Result<Option<Claim>, Memory>
    ensures { IfOk result (λ read. MatchOption read
        ((said : Verdict) → HasNumbers line.now said → words.now ≢ verdict_words said)
        (λ claim. HasNumbers line.now (verdict_in claim)
        × (words.now ≡ verdict_words (verdict_in claim)))) }
{
    if is(words, b"yes") {
        return Ok(Some(Claim::Yes));
    }
    if is(words, b"undecided") {
        return Ok(Some(Claim::Undecided));
    }
    match read_no(alloc, line, words)? {
        Some(numbers) => Ok(Some(Claim::No(numbers))),
        None => Ok(None),
    }
}

/// The numbers of a `no`, one for each parameter of the line, if it is that.
pub fn read_no(alloc: Global, line: &Line, words: &[u8]) -> Result<Option<Vec<u32>>, Memory>
    ensures { IfOk result (λ read. MatchOption read
        ((numbers : List ℕ) → AreNumbers (param_count line.now) numbers →
        words.now ≢ no_words numbers)
        (λ numbers. AreNumbers (param_count line.now) numbers.items
        × (words.now ≡ no_words numbers.items))) }
{
    let Some(text) = after(words, b"no") else {
        return Ok(None);
    };
    read_numbers(alloc, text, line.params.len())
}
