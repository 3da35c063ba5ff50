//! The records of a fault at a terminal.

ghost use Rattle.std.specs.Prelude.{◌≡◌, ◌++◌, IfOk, OnOk};
ghost use Rattle.base_text.specs.lines.Milliseconds.{ticks_text};
ghost use Rattle.csv.specs.Writing.{row_text, default_writer};
ghost use Rattle.call_times.specs.Rows.{along_text, joined_text, place_text as place_words};
ghost use Rattle.call_times.specs.Rows.{stretch_record, stretch_rows, times_header};
ghost use Rattle.call_times.specs.Times.{found_in};

use crate::found::{Found, both, found_of, nothing};
use base_records::push_record;
use base_text::lines::push_ticks;
use file_borders::LooseFault;
use judge_times::{Along, Stretch};
use model_line::{Line, Memory, kind_word, name_of_terminal};
use std::alloc::Global;

/// Appends the header.
pub(crate) fn push_header(alloc: Global, text: &mut Vec<u8>) -> Result<(), Memory>
    ensures { OnOk result (text.new.items ≡ text.old.items ++ row_text default_writer times_header) }
{
    push_record(
        alloc,
        text,
        &[
            b"fault",
            b"terminal",
            b"kind",
            b"from_ms",
            b"to_ms",
            b"answer",
            b"place_ms",
        ],
    )
}

/// Appends the records of stretches of a fault at a terminal: whether one fails, and whether one is open.
pub(crate) fn push_stretches(
    alloc: Global,
    text: &mut Vec<u8>,
    line: &Line,
    fault: &LooseFault,
    terminal: u32,
    all: &[Stretch],
) -> Result<Found, Memory>
    ensures text { OnOk result (text.new.items
        ≡ text.old.items ++ stretch_rows line.now fault.now terminal all.now) }
    ensures found { IfOk result (λ found. found ≡ found_in all.now) }
{
    match all {
        [] => Ok(nothing()),
        [one, more @ ..] => {
            push_stretch(alloc, text, line, fault, terminal, one)?;
            let further = push_stretches(alloc, text, line, fault, terminal, more)?;
            Ok(both(found_of(one.told), further))
        }
    }
}

// Appends the record of a stretch of a fault at a terminal.
#[tactic(auto, unfolding(crate::specs::Rows::stretch_record))]
fn push_stretch<'a>(
    alloc: Global,
    text: &mut Vec<u8>,
    line: &'a Line,
    fault: &LooseFault,
    terminal: u32,
    one: &Stretch,
) -> Result<(), Memory>
    ensures { OnOk result (text.new.items
        ≡ text.old.items ++ row_text default_writer (stretch_record line.now fault.now terminal one.now)) }
{
    let from = time_text(alloc, line.tick_us, one.from)?;
    let to = time_text(alloc, line.tick_us, one.to)?;
    let place = place_text(alloc, line.tick_us, one.place.as_slice(), one.told)?;
    let name = fault.script.name;
    let at: &'a [u8] = name_of_terminal(line, terminal);
    let kind: &'a [u8] = kind_word(fault.kind);
    let answer: &'a [u8] = along_word(one.told);
    push_record(
        alloc,
        text,
        &[
            name.bytes(),
            at,
            kind,
            from.as_slice(),
            to.as_slice(),
            answer,
            place.as_slice(),
        ],
    )
}

// A time in milliseconds.
fn time_text(alloc: Global, tick_us: u32, t: u32) -> Result<Vec<u8>, Memory>
    ensures { IfOk result (λ text. text.items ≡ ticks_text tick_us t) }
{
    let mut text = Vec::new(alloc);
    push_ticks(&mut text, tick_us, t)?;
    Ok(text)
}

// A place, where something fails.
fn place_text(alloc: Global, tick_us: u32, place: &[u32], told: Along) -> Result<Vec<u8>, Memory>
    ensures { IfOk result (λ text. text.items ≡ place_words tick_us place.now told) }
{
    let mut text = Vec::new(alloc);
    if let Along::Fails = told {
        push_joined(&mut text, b"", tick_us, place)?;
    }
    Ok(text)
}

// Appends times in milliseconds, the first behind this, the others behind `/`.
fn push_joined(text: &mut Vec<u8>, before: &[u8], tick_us: u32, place: &[u32]) -> Result<(), Memory>
    ensures { OnOk result (text.new.items ≡ text.old.items ++ joined_text before.now tick_us place.now) }
{
    match place {
        [] => Ok(()),
        [t, more @ ..] => {
            push_behind(text, before, tick_us, *t)?;
            push_joined(text, b"/", tick_us, more)
        }
    }
}

// Appends a time behind this.
fn push_behind(text: &mut Vec<u8>, before: &[u8], tick_us: u32, t: u32) -> Result<(), Memory>
    ensures { OnOk result (text.new.items ≡ text.old.items ++ (before.now ++ ticks_text tick_us t)) }
{
    text.extend_from_slice(before)?;
    push_ticks(text, tick_us, t)?;
    Ok(())
}

fn along_word(told: Along) -> &'static [u8]
    ensures { result.now ≡ along_text told }
{
    match told {
        Along::Held => b"held",
        Along::Fails => b"fails",
        Along::Open => b"open",
    }
}
