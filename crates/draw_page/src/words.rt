//! Times and answers in words.

ghost use Rattle.std.specs.Prelude.{◌≡◌, ◌++◌, [], IfOk, OnOk, map};
ghost use Rattle.draw_page.specs.Words.{by_said, deadline_said, interval_said};
ghost use Rattle.draw_page.specs.Words.{left_said, margin_of, number_said, spare_said, ticks_text, time_said};
ghost use Rattle.draw_page.specs.Words.{trip_said, with_pieces};

use crate::page::{Means, Verdict};
use itoa::Buffer;
use std::alloc::{AllocError, Global};

/// These pieces, one behind the other.
pub fn words_of(alloc: Global, pieces: &[&[u8]]) -> Result<Vec<u8>, AllocError>
    ensures { IfOk result (λ text. text.items
        ≡ with_pieces [] (map (λ piece. piece.now) pieces.now)) }
{
    let mut text = Vec::new(alloc);
    for piece in pieces {
        text.extend_from_slice(piece)?;
    }
    Ok(text)
}

/// A number in decimal digits.
pub fn number_words(alloc: Global, number: usize) -> Result<Vec<u8>, AllocError>
    ensures { IfOk result (λ text. text.items ≡ number_said number) }
{
    Vec::from_slice(alloc, Buffer::new().format(number).as_bytes())
}

// Appends ticks in milliseconds.
#[tactic(auto, unfolding(crate::specs::Words::ticks_text))]
fn push_ticks(text: &mut Vec<u8>, tick_us: u32, t: u32) -> Result<(), AllocError>
    ensures { OnOk result (text.new.items ≡ text.old.items ++ ticks_text tick_us t) }
{
    base_text::lines::push_ticks(text, tick_us, t)
}

/// Ticks in milliseconds.
pub fn ticks_words(alloc: Global, tick_us: u32, t: u32) -> Result<Vec<u8>, AllocError>
    ensures { IfOk result (λ text. text.items ≡ ticks_text tick_us t) }
{
    let mut text = Vec::new(alloc);
    push_ticks(&mut text, tick_us, t)?;
    Ok(text)
}

// Appends a time.
fn put_time(text: &mut Vec<u8>, tick_us: u32, t: u32) -> Result<(), AllocError>
    ensures { OnOk result (text.new.items ≡ text.old.items ++ time_said tick_us t) }
{
    push_ticks(text, tick_us, t)?;
    text.extend_from_slice(b" ms")
}

/// Words and a time behind them, as `from 12.25 ms`.
pub fn timed_words(alloc: Global, words: &[u8], tick_us: u32, t: u32) -> Result<Vec<u8>, AllocError>
    ensures { IfOk result (λ text. text.items ≡ words.now ++ time_said tick_us t) }
{
    let mut text = Vec::from_slice(alloc, words)?;
    put_time(&mut text, tick_us, t)?;
    Ok(text)
}

/// A time, as `12.25 ms`.
pub fn time_words(alloc: Global, tick_us: u32, t: u32) -> Result<Vec<u8>, AllocError>
    ensures { IfOk result (λ text. text.items ≡ time_said tick_us t) }
{
    timed_words(alloc, b"", tick_us, t)
}

/// An interval, as `8 to 16 ms`; one time where both ends are the same.
pub fn interval_words(
    alloc: Global,
    tick_us: u32,
    low: u32,
    high: u32,
) -> Result<Vec<u8>, AllocError>
    ensures { IfOk result (λ text. text.items ≡ interval_said tick_us low high) }
{
    if low == high {
        return time_words(alloc, tick_us, low);
    }
    let mut text = ticks_words(alloc, tick_us, low)?;
    text.extend_from_slice(b" to ")?;
    put_time(&mut text, tick_us, high)?;
    Ok(text)
}

/// When the trip may come first and when it must have: `58 to 66 ms`, `from 58 ms`, or `none`.
pub fn trip_words(
    alloc: Global,
    tick_us: u32,
    may: Option<u32>,
    must: Option<u32>,
) -> Result<Vec<u8>, AllocError>
    ensures { IfOk result (λ text. text.items ≡ trip_said tick_us may must) }
{
    match (may, must) {
        (None, _) => Vec::from_slice(alloc, b"none"),
        (Some(may), None) => timed_words(alloc, b"from ", tick_us, may),
        (Some(may), Some(must)) => interval_words(alloc, tick_us, may, must),
    }
}

/// What is left: of a fault with a deadline that less the tick at which the trip must have come, of another what
/// it has to spare; nothing where that is not known.
pub fn left_words(alloc: Global, tick_us: u32, verdict: &Verdict) -> Result<Vec<u8>, AllocError>
    ensures { IfOk result (λ text. text.items ≡ left_said tick_us verdict.now) }
{
    match (verdict.deadline, verdict.must) {
        (Some(deadline), Some(must)) => margin(alloc, tick_us, deadline, must),
        (None, _) => spare_words(alloc, tick_us, verdict.spare),
        (Some(_), None) => Ok(Vec::new(alloc)),
    }
}

fn spare_words(alloc: Global, tick_us: u32, spare: Option<u32>) -> Result<Vec<u8>, AllocError>
    ensures { IfOk result (λ text. text.items ≡ spare_said tick_us spare) }
{
    match spare {
        Some(spare) => time_words(alloc, tick_us, spare),
        None => Ok(Vec::new(alloc)),
    }
}

fn margin(alloc: Global, tick_us: u32, deadline: u32, must: u32) -> Result<Vec<u8>, AllocError>
    ensures { IfOk result (λ text. text.items ≡ margin_of tick_us deadline must) }
{
    if must <= deadline {
        return time_words(alloc, tick_us, deadline - must);
    }
    timed_words(alloc, b"-", tick_us, must - deadline)
}

/// A deadline; `never` where there is none.
pub fn deadline_words(
    alloc: Global,
    tick_us: u32,
    deadline: Option<u32>,
) -> Result<Vec<u8>, AllocError>
    ensures { IfOk result (λ text. text.items ≡ deadline_said tick_us deadline) }
{
    match deadline {
        Some(deadline) => time_words(alloc, tick_us, deadline),
        None => Vec::from_slice(alloc, b"never"),
    }
}

/// By what an obligation was settled.
pub fn by_words(means: Means) -> &'static [u8]
    ensures { result.now ≡ by_said means }
{
    match means {
        Means::Rules => b"interval rules",
        Means::Candidate => b"a timing tried",
        Means::Corner => b"the worst corner",
        Means::Parts => b"parts of the intervals",
        Means::Cases => b"cases of echoes",
    }
}
