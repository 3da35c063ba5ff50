//! What the parts tell of a tick of the first time, and of the gap behind it.

ghost use Rattle.std.specs.Prelude.{◌≡◌, List, get_or, slice_get, IfOk, IfSome};
ghost use Rattle.std.specs.List.{All, list_any};
ghost use Rattle.model_history.specs.Rails.{Ends, single};
ghost use Rattle.judge_times.specs.Along.{fails_by as fails_told, fails_here as fails_at_tick};
ghost use Rattle.judge_times.specs.Along.{first_of as first_time, is_unheld as unheld};
ghost use Rattle.judge_times.specs.Along.{is_unheld_over as unheld_over, times_at as all_times_at};
ghost use Rattle.judge_times.specs.{Answers.IsAnswer, Stretches.FailsThere};
ghost use Rattle.judge_times.specs.declared.fault.Uncertain.{Uncertain};

use crate::part::{Part, Told};
use judge_borders::laws::what_is_known_of_a_part_is_known_within;
use model_line::Memory;
use run_signal::Within;
use std::alloc::Global;

/// Whether some part does not tell that a terminal is held.
pub(crate) fn some_unheld(parts: &[Part], terminal: u32) -> bool
    ensures { result ≡ list_any (unheld terminal) parts.now }
{
    match parts {
        [] => false,
        [part, rest @ ..] => is_unheld(part, terminal) || some_unheld(rest, terminal),
    }
}

/// Whether some part that has a tick and the next does not tell that a terminal is held.
pub(crate) fn some_unheld_over(parts: &[Part], t: u32, terminal: u32) -> bool
    ensures { result ≡ list_any (unheld_over t terminal) parts.now }
{
    match parts {
        [] => false,
        [part, rest @ ..] => {
            is_unheld_over(part, t, terminal) || some_unheld_over(rest, t, terminal)
        }
    }
}

/// Times, the first of them this tick, at which a terminal is told to fail, if there are any.
pub(crate) fn failing_times(
    alloc: Global,
    parts: &[Part],
    t: u32,
    terminal: u32,
) -> Result<Option<Vec<u32>>, Memory>
    ensures { IfOk result (λ found. IfSome found (λ times. (of : Uncertain) (whole : List Ends) →
        All (IsAnswer of whole) parts.now → FailsThere of whole terminal t times.items)) }
{
    what_is_known_of_a_part_is_known_within();
    for part in parts {
        if fails_here(part, t, terminal) {
            let times = times_at(alloc, part.lengths.as_slice(), t)?;
            return Ok(Some(times));
        }
    }
    Ok(None)
}

fn is_unheld(part: &Part, terminal: u32) -> bool
    ensures { result ≡ unheld terminal part.now }
{
    !matches!(told_at(part, terminal), Some(Told::Held))
}

fn is_unheld_over(part: &Part, t: u32, terminal: u32) -> bool
    ensures { result ≡ unheld_over t terminal part.now }
{
    let first = first_of(part);
    (first.least() <= t && t < first.greatest()) && is_unheld(part, terminal)
}

fn fails_here(part: &Part, t: u32, terminal: u32) -> bool
    ensures { result ≡ fails_at_tick t terminal part.now }
{
    fails_by(first_of(part), t, told_at(part, terminal))
}

fn fails_by(first: Within, t: u32, told: Option<Told>) -> bool
    ensures { result ≡ fails_told first t told }
{
    match told {
        Some(Told::Fails) => first.least() == t,
        Some(Told::Broken) => first.least() <= t && t <= first.greatest(),
        Some(Told::Held) | Some(Told::Open) | None => false,
    }
}

fn told_at(part: &Part, terminal: u32) -> Option<Told>
    ensures { result ≡ slice_get part.now.told.items terminal }
{
    let k = terminal as usize;
    if k < part.told.len() {
        Some(part.told[k])
    } else {
        None
    }
}

// The first time of a part.
fn first_of(part: &Part) -> Within
    ensures { result ≡ first_time part.now }
{
    first_in(part.lengths.as_slice())
}

/// The first time of these.
pub(crate) fn first_in(lengths: &[Within]) -> Within
    ensures { result ≡ get_or lengths.now 0 (single 0) }
{
    match lengths {
        [] => Within::new(0, 0),
        [first, ..] => *first,
    }
}

// A tick, and each other time at its least.
fn times_at(alloc: Global, lengths: &[Within], t: u32) -> Result<Vec<u32>, Memory>
    ensures { IfOk result (λ times. times.items ≡ all_times_at lengths.now t) }
{
    let mut times = Vec::new(alloc);
    if let [_, rest @ ..] = lengths {
        times.push(t)?;
        for own in rest {
            times.push(own.least())?;
        }
    }
    Ok(times)
}
