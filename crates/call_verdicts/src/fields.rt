//! The fields of a record of the table.

ghost use Rattle.std.specs.Prelude.{◌≡◌, ◌++◌, ◌∷◌, [], IfOk, IfSome, None, OnOk, Some, decimal};
ghost use Rattle.model_line.specs.declared.script.Kind.TheVariants.{Internal};
ghost use Rattle.base_text.specs.lines.Milliseconds.{ticks_text};
ghost use Rattle.call_verdicts.specs.Records.{answer_word as word_of_answer, fails_for};
ghost use Rattle.call_verdicts.specs.Records.{margin_text as margin_text_of, times_text};
ghost use Rattle.call_verdicts.specs.Records.{trip_text as trip_text_of};

use crate::finding::Standing;
use base_text::lines::push_ticks;
use itoa::Buffer;
use judge_settle::settle::choices_word;
use model_line::{Kind, Memory};
use std::alloc::Global;

/// Times with `/` between them.
pub fn times(alloc: Global, tick_us: u32, ticks: &[u32]) -> Result<Vec<u8>, Memory>
    ensures { IfOk result (λ text. text.items ≡ times_text tick_us ticks.now) }
{
    match ticks {
        [] => Ok(Vec::new(alloc)),
        [first, more @ ..] => times_from(alloc, tick_us, *first, more),
    }
}

// A time, and more behind it.
fn times_from(alloc: Global, tick_us: u32, first: u32, more: &[u32]) -> Result<Vec<u8>, Memory>
    ensures { IfOk result (λ text. text.items ≡ times_text tick_us (first ∷ more.now)) }
{
    let mut text = ticks_behind(alloc, b"", tick_us, first)?;
    for t in more {
        push_more(&mut text, tick_us, *t)?;
    }
    Ok(text)
}

// Appends one time more.
fn push_more(text: &mut Vec<u8>, tick_us: u32, t: u32) -> Result<(), Memory>
    ensures { OnOk result (text.new.items ≡ text.old.items ++ 47 ∷ ticks_text tick_us t) }
{
    text.push(b'/')?;
    push_ticks(text, tick_us, t)?;
    Ok(())
}

/// When a trip must have come, and how long before its deadline that is.
#[derive(Drop)]
pub struct TripText {
    pub trip: Vec<u8>,
    pub margin: Vec<u8>,
}

/// What is told of the first tick by which a trip must have come.
pub fn told_of_trip(
    alloc: Global,
    tick_us: u32,
    kind: Kind,
    deadline: u32,
    first: Option<u32>,
) -> Result<TripText, Memory>
    ensures trip { IfOk result (λ t. t.trip.items ≡ trip_text_of tick_us first) }
    ensures margin { IfOk result (λ t.
        t.margin.items ≡ margin_text_of tick_us kind deadline first) }
{
    let trip = trip_text(alloc, tick_us, first)?;
    let margin = margin_text(alloc, tick_us, kind, deadline, first)?;
    Ok(TripText { trip, margin })
}

/// When the trip must have come; nothing where it need not come.
pub fn trip_text(alloc: Global, tick_us: u32, first: Option<u32>) -> Result<Vec<u8>, Memory>
    ensures { IfOk result (λ text. text.items ≡ trip_text_of tick_us first) }
{
    match first {
        Some(first) => ticks_behind(alloc, b"", tick_us, first),
        None => Ok(Vec::new(alloc)),
    }
}

// The deadline less that; nothing where there are not both.
fn margin_text(
    alloc: Global,
    tick_us: u32,
    kind: Kind,
    deadline: u32,
    first: Option<u32>,
) -> Result<Vec<u8>, Memory>
    ensures { IfOk result (λ text.
        text.items ≡ margin_text_of tick_us kind deadline first) }
{
    match (kind, first) {
        (Kind::Internal, Some(first)) => margin(alloc, tick_us, deadline, first),
        (Kind::Internal, None) => Ok(Vec::new(alloc)),
        (Kind::External, _) => Ok(Vec::new(alloc)),
    }
}

fn margin(alloc: Global, tick_us: u32, deadline: u32, first: u32) -> Result<Vec<u8>, Memory>
    ensures { IfOk result (λ text.
        text.items ≡ margin_text_of tick_us Internal deadline (Some first)) }
{
    if first <= deadline {
        ticks_behind(alloc, b"", tick_us, deadline - first)
    } else {
        ticks_behind(alloc, b"-", tick_us, first - deadline)
    }
}

// A time behind a sign.
fn ticks_behind(alloc: Global, sign: &[u8], tick_us: u32, t: u32) -> Result<Vec<u8>, Memory>
    ensures { IfOk result (λ text. text.items ≡ sign.now ++ ticks_text tick_us t) }
{
    let mut text = Vec::from_slice(alloc, sign)?;
    push_ticks(&mut text, tick_us, t)?;
    Ok(text)
}

/// A number in digits, which stand there; nothing where there is none.
pub fn number_words<'a>(digits: &'a mut Buffer, number: Option<usize>) -> &'a [u8]
    ensures some { IfSome number (λ n. result.now ≡ decimal n) }
    ensures none { number ≡ None → result.now ≡ [] }
{
    match number {
        Some(number) => digits.format(number).as_bytes(),
        None => b"",
    }
}

/// `held`, `fails` or `open`.
pub fn answer_word(standing: Standing) -> &'static [u8]
    ensures { result.now ≡ word_of_answer standing }
{
    match standing {
        Standing::Held => b"held",
        Standing::Fails { .. } => b"fails",
        Standing::Open => b"open",
    }
}

/// For which choices it fails: `every` or `some`; nothing where it does not.
pub fn fails_for_word(standing: Standing) -> &'static [u8]
    ensures { result.now ≡ fails_for standing }
{
    match standing {
        Standing::Fails { every } => choices_word(every),
        Standing::Held | Standing::Open => b"",
    }
}
