//! The channels' delays of the choices that are played.

ghost use Rattle.std.specs.Prelude.{◌≡◌, ◌<◌, ◌+◌, ◌++◌, IfOk, OnOk, get_or, length, slice_get};
ghost use Rattle.std.specs.List.{flat_map};
ghost use Rattle.csv.specs.Writing.{row_text, default_writer};
ghost use Rattle.base_text.specs.lines.Milliseconds.{ticks_text};
ghost use Rattle.model_history.specs.Each.{each_below};
ghost use Rattle.model_line.specs.Parameters.{channel_count, delay_param};
ghost use Rattle.call_shots.specs.Delays.{channel_rows, delay_row, delays_header, shot_rows};
ghost use Rattle.call_shots.specs.Delays.{delays_text as text_of_delays, step_row};

use crate::states::ticks_words;
use base_records::push_record;
use call_verdicts::{Cases, Finding};
use itoa::Buffer;
use model_line::{Line, Memory, name_of_script, name_of_terminal};
use model_timing::{Step, Timing};
use run_signal::Tick;
use std::alloc::Global;

/// The table of delays: of each shot and channel the delay from the start, and where it changes.
pub fn delays_text(
    alloc: Global,
    cases: &Cases,
    shots: &[Finding],
    timings: &[Timing],
) -> Result<Vec<u8>, Memory>
    ensures { IfOk result (λ text. text.items ≡ text_of_delays cases.now.compiled.line.now
        cases.now.scripts.now shots.now timings.now) }
{
    let mut text = Vec::new(alloc);
    push_header(alloc, &mut text)?;
    for i in 0..shots.len() {
        push_shot(alloc, &mut text, cases, shots, timings, i)?;
    }
    Ok(text)
}

fn push_header(alloc: Global, text: &mut Vec<u8>) -> Result<(), Memory>
    ensures { OnOk result (text.new.items
        ≡ text.old.items ++ row_text default_writer delays_header) }
{
    push_record(
        alloc,
        text,
        &[b"shot", b"script", b"from", b"to", b"since_ms", b"delay_ms"],
    )
}

// Appends the delays of shot i.
fn push_shot(
    alloc: Global,
    text: &mut Vec<u8>,
    cases: &Cases,
    shots: &[Finding],
    timings: &[Timing],
    i: usize,
) -> Result<(), Memory>
    requires { i < length shots.now }
    ensures { OnOk result (text.new.items ≡ text.old.items
        ++ shot_rows cases.now.compiled.line.now cases.now.scripts.now i (slice_get shots.now i)
        (slice_get timings.now i)) }
{
    match timings.get(i) {
        Some(timing) => {
            let name = name_of_script(cases.scripts, shots[i].script);
            push_channels(alloc, text, cases.compiled.line, name, i + 1, timing)
        }
        None => Ok(()),
    }
}

// Appends those of all channels, in the shot of this number.
fn push_channels(
    alloc: Global,
    text: &mut Vec<u8>,
    line: &Line,
    name: &[u8],
    number: usize,
    timing: &Timing,
) -> Result<(), Memory>
    ensures { OnOk result (text.new.items ≡ text.old.items ++ each_below (channel_count line.now)
        (channel_rows line.now name.now number timing.now)) }
{
    for c in 0..line.channels.len() {
        push_channel(alloc, text, line, name, number, timing, c)?;
    }
    Ok(())
}

// Appends those of a channel.
#[tactic(auto, unfolding(crate::specs::Delays::channel_rows))]
fn push_channel(
    alloc: Global,
    text: &mut Vec<u8>,
    line: &Line,
    name: &[u8],
    number: usize,
    timing: &Timing,
    c: usize,
) -> Result<(), Memory>
    requires { c < channel_count line.now }
    ensures { OnOk result (text.new.items ≡ text.old.items
        ++ channel_rows line.now name.now number timing.now c) }
{
    let delay = number_at(timing, line.delay_of(c as u32));
    push_delay(alloc, text, line, name, number, c, 0, delay)?;
    push_steps(alloc, text, line, name, number, c, timing.steps())
}

// The number of a parameter.
fn number_at(timing: &Timing, param: u32) -> u32
    ensures { result ≡ get_or timing.now.values param 0 }
{
    match timing.values().get(param as usize) {
        Some(value) => value.value(),
        None => 0,
    }
}

// Appends the steps of a channel's delay.
fn push_steps(
    alloc: Global,
    text: &mut Vec<u8>,
    line: &Line,
    name: &[u8],
    number: usize,
    c: usize,
    steps: &[Step<Tick>],
) -> Result<(), Memory>
    requires { c < channel_count line.now }
    ensures { OnOk result (text.new.items ≡ text.old.items
        ++ flat_map (step_row line.now name.now number c) steps.now) }
{
    for step in steps {
        push_step(alloc, text, line, name, number, c, step)?;
    }
    Ok(())
}

// Appends a step, if it is one of this channel's delay.
fn push_step(
    alloc: Global,
    text: &mut Vec<u8>,
    line: &Line,
    name: &[u8],
    number: usize,
    c: usize,
    step: &Step<Tick>,
) -> Result<(), Memory>
    requires { c < channel_count line.now }
    ensures { OnOk result (text.new.items ≡ text.old.items
        ++ step_row line.now name.now number c step.now) }
{
    if step.param == line.delay_of(c as u32) {
        push_delay(
            alloc,
            text,
            line,
            name,
            number,
            c,
            step.from,
            step.value.value(),
        )
    } else {
        Ok(())
    }
}

// Appends a delay that a channel has from a tick on.
#[tactic(auto, unfolding(crate::specs::Delays::delay_record))]
fn push_delay<'a>(
    alloc: Global,
    text: &mut Vec<u8>,
    line: &'a Line,
    name: &'a [u8],
    number: usize,
    c: usize,
    since: u32,
    delay: u32,
) -> Result<(), Memory>
    requires { c < channel_count line.now }
    ensures { OnOk result (text.new.items ≡ text.old.items
        ++ delay_row line.now name.now number c since delay) }
{
    let mut digits = Buffer::new();
    let since = ticks_words(alloc, line.tick_us, since)?;
    let delay = ticks_words(alloc, line.tick_us, delay)?;
    let from: &'a [u8] = name_of_terminal(line, line.channels[c].from);
    let to: &'a [u8] = name_of_terminal(line, line.channels[c].to);
    push_record(
        alloc,
        text,
        &[
            digits.format(number).as_bytes(),
            name,
            from,
            to,
            since.as_slice(),
            delay.as_slice(),
        ],
    )
}
