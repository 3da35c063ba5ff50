//! The text of a wave, both ways.
#![tactic(auto)]

ghost use Rattle.std.specs.Prelude.{◌≡◌, ◌≤◌, ◌<◌, ◌+◌, ◌++◌, List, length, take, drop, Some, IfOk};
ghost use Rattle.std.specs.Prelude.{OnOk, MatchOption, IsFalse, ◌↔◌};
ghost use Rattle.run_signal.specs.declared.tern.Tern.{Tern};
ghost use Rattle.run_waves.specs.declared.waves.runs.Run.{Run};
ghost use Rattle.run_waves.specs.waves.Waves.{AreApart, AreRunsOf, levels_of, runs_from};
ghost use Rattle.run_waves.specs.waves.Text.{tern_word as word_of_tern, item_text, items_text};
ghost use Rattle.run_waves.specs.waves.Text.{runs_text, gap, IsTextOf, level_in, run_in};

use crate::waves::laws::texts_tell_waves;
use crate::waves::runs::{Run, Runs, Stretch};
use base_text::lines::find_byte;
use base_text::store::number;
use itoa::Buffer;
use model_line::Memory;
use run_signal::Tern;
use std::alloc::Global;

/// The one text of the wave: items `L:N` in order of time, with one space between each two. L is
/// `0`, `1` or `?`, N the number of ticks.
pub fn print_runs(alloc: Global, runs: &Runs) -> Result<Vec<u8>, Memory>
    ensures { IfOk result (λ text. text.items ≡ runs_text runs.now) }
{
    print_items(alloc, runs.stretches())
}

fn print_items(alloc: Global, stretches: &[Stretch]) -> Result<Vec<u8>, Memory>
    requires { AreApart (runs_from 0 stretches.now) }
    ensures { IfOk result (λ text. text.items ≡ items_text (runs_from 0 stretches.now)) }
{
    let mut text = Vec::new(alloc);
    let mut from = 0;
    for i in 0..stretches.len() {
        let Stretch { level, end } = stretches[i];
        let ticks = end - from;
        push_item(&mut text, gap_before(i), Run { level, ticks })?;
        from = end;
    }
    Ok(text)
}

// What stands before the item at that place.
fn gap_before(i: usize) -> &'static [u8]
    ensures { result.now ≡ gap i }
{
    if i == 0 { b"" } else { b" " }
}

// Appends an item, and what stands before it.
fn push_item(text: &mut Vec<u8>, before: &[u8], run: Run) -> Result<(), Memory>
    ensures { OnOk result (text.new.items ≡ text.old.items ++ (before.now ++ item_text run)) }
{
    let mut buffer = Buffer::new();
    text.extend_from_slice(before)?;
    text.extend_from_slice(tern_word(run.level))?;
    text.push(b':')?;
    text.extend_from_slice(buffer.format(run.ticks).as_bytes())?;
    Ok(())
}

/// `0`, `1` or `?`.
pub fn tern_word(level: Tern) -> &'static [u8]
    ensures { result.now ≡ word_of_tern level }
{
    match level {
        Tern::Zero => b"0",
        Tern::One => b"1",
        Tern::Unknown => b"?",
    }
}

/// The wave of this text, if it is the one text of a wave of so many ticks.
pub fn read_runs(alloc: Global, text: &[u8], horizon: u32) -> Result<Option<Runs>, Memory>
    requires some { 1 ≤ horizon }
    requires limited { horizon ≤ 4000 }
    ensures { IfOk result (λ read. MatchOption read
        ((wave : List Tern) → ¬ IsTextOf text.now horizon wave)
        (λ wave. IsTextOf text.now horizon wave)) }
{
    texts_tell_waves();
    let Some(wave) = read_items(alloc, text, horizon)? else {
        return Ok(None);
    };
    if wave.len() == horizon {
        Ok(Some(wave))
    } else {
        Ok(None)
    }
}

// The wave of which this is the one text, if it has at most so many ticks. None only where it is the
// text of no wave of so many.
fn read_items(alloc: Global, text: &[u8], horizon: u32) -> Result<Option<Runs>, Memory>
    requires some { 1 ≤ horizon }
    requires limited { horizon ≤ 4000 }
    ensures { IfOk result (λ read. MatchOption read
        ((runs : List Run) → AreRunsOf runs horizon → ¬ (items_text runs ≡ text.now))
        (λ wave. runs_text wave ≡ text.now)) }
{
    let mut wave = Runs::new(alloc);
    let mut last = None;
    let mut rest = text;
    'items: loop {
        let end = find_byte(rest, b' ');
        let Some(run) = first_run(rest, end) else {
            return Ok(None);
        };
        if goes_on(last, run) || run.ticks > horizon - wave.len() {
            return Ok(None);
        }
        wave.push(run.level, run.ticks)?;
        if end == rest.len() {
            return Ok(Some(wave));
        }
        last = Some(run.level);
        rest = after_item(rest, end);
    }
}

// Whether a run has no ticks, or the value of the run before it.
fn goes_on(last: Option<Tern>, run: Run) -> bool
    ensures { IsFalse result ↔ ((1 ≤ run.ticks) × ¬ (last ≡ Some run.level)) }
{
    if run.ticks < 1 {
        return true;
    }
    match last {
        Some(level) => level == run.level,
        None => false,
    }
}

// The run of the first item, which ends there.
fn first_run(text: &[u8], end: usize) -> Option<Run>
    requires { end ≤ length text.now }
    ensures { result ≡ run_in (take end text.now) }
{
    item_of(&text[..end])
}

// What follows the space after the first item.
fn after_item(text: &[u8], end: usize) -> &[u8]
    requires { end < length text.now }
    ensures { result.now ≡ drop (end + 1) text.now }
{
    &text[end + 1..]
}

// The run of an item.
fn item_of(item: &[u8]) -> Option<Run>
    ensures { result ≡ run_in item.now }
{
    match item {
        [letter, b':', digits @ ..] => {
            let level = level_of(*letter)?;
            let ticks = number(digits)?;
            Some(Run { level, ticks })
        }
        _ => None,
    }
}

fn level_of(letter: u8) -> Option<Tern>
    ensures { result ≡ level_in letter }
{
    match letter {
        b'0' => Some(Tern::Zero),
        b'1' => Some(Tern::One),
        b'?' => Some(Tern::Unknown),
        _ => None,
    }
}
