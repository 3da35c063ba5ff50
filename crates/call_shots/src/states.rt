//! The states of what each relay sees.

ghost use Rattle.std.specs.Prelude.{◌≡◌, ◌≤◌, ◌<◌, ◌+◌, ◌++◌, IfOk, OnOk, length, slice_get};
ghost use Rattle.base_text.specs.lines.Milliseconds.{ticks_text};
ghost use Rattle.csv.specs.Writing.{row_text, default_writer};
ghost use Rattle.model_history.specs.Each.{each_below};
ghost use Rattle.call_shots.specs.Changes.{count_begun};
ghost use Rattle.call_shots.specs.States.{behind, lost_words, script_states, state_at};
ghost use Rattle.call_shots.specs.States.{state_record, states_header, states_of_shot};
ghost use Rattle.call_shots.specs.States.{states_text as text_of_states};

use crate::changes::{begins, loses, next_from, sees};
use base_records::push_record;
use base_text::lines::push_ticks;
use call_verdicts::{Cases, Finding};
use itoa::Buffer;
use model_line::{Element, Line, Memory, Script, name_of_terminal};
use run_changes::rows::level_word;
use std::alloc::Global;

/// The table of states: of each shot and each terminal what the relay sees, one state after another.
pub fn states_text(alloc: Global, cases: &Cases, shots: &[Finding]) -> Result<Vec<u8>, Memory>
    ensures { IfOk result (λ text. text.items ≡ text_of_states cases.now.compiled.line.now
        cases.now.scripts.now shots.now) }
{
    let mut text = Vec::new(alloc);
    push_header(alloc, &mut text)?;
    for i in 0..shots.len() {
        push_shot(alloc, &mut text, cases, shots, i)?;
    }
    Ok(text)
}

fn push_header(alloc: Global, text: &mut Vec<u8>) -> Result<(), Memory>
    ensures { OnOk result (text.new.items
        ≡ text.old.items ++ row_text default_writer states_header) }
{
    push_record(
        alloc,
        text,
        &[
            b"shot",
            b"script",
            b"terminal",
            b"state",
            b"from_ms",
            b"lasts_ms",
            b"z1",
            b"z2",
            b"rv",
            b"uv",
            b"cur",
            b"lost",
        ],
    )
}

// Appends the states of shot i.
fn push_shot(
    alloc: Global,
    text: &mut Vec<u8>,
    cases: &Cases,
    shots: &[Finding],
    i: usize,
) -> Result<(), Memory>
    requires { i < length shots.now }
    ensures { OnOk result (text.new.items ≡ text.old.items
        ++ states_of_shot cases.now.compiled.line.now cases.now.scripts.now i
        (slice_get shots.now i)) }
{
    match cases.scripts.get(shots[i].script as usize) {
        Some(script) => push_script(alloc, text, cases.compiled.line, script, i + 1),
        None => Ok(()),
    }
}

// Appends the states of a script, terminal by terminal, in the shot of this number.
fn push_script(
    alloc: Global,
    text: &mut Vec<u8>,
    line: &Line,
    script: &Script,
    shot: usize,
) -> Result<(), Memory>
    ensures { OnOk result (text.new.items ≡ text.old.items
        ++ script_states line.now script.now shot) }
{
    for k in 0..line.terminals.len() {
        push_terminal(alloc, text, line, script, shot, k as u32)?;
    }
    Ok(())
}

// Appends those of a terminal.
fn push_terminal(
    alloc: Global,
    text: &mut Vec<u8>,
    line: &Line,
    script: &Script,
    shot: usize,
    terminal: u32,
) -> Result<(), Memory>
    ensures { OnOk result (text.new.items ≡ text.old.items
        ++ each_below line.now.horizon (λ t. state_at line.now script.now shot terminal t)) }
{
    let mut begun = 0;
    for t in 0..line.horizon {
        begun = push_tick(alloc, text, line, script, shot, terminal, t, begun)?;
    }
    Ok(())
}

// Appends the state that begins at a tick, if one does, behind so many; and says how many there are.
fn push_tick(
    alloc: Global,
    text: &mut Vec<u8>,
    line: &Line,
    script: &Script,
    shot: usize,
    terminal: u32,
    t: u32,
    begun: u32,
) -> Result<u32, Memory>
    requires tick { t < line.now.horizon }
    requires begun { begun ≡ count_begun line.now script.now terminal t }
    requires few { begun ≤ t }
    ensures text { OnOk result (text.new.items ≡ text.old.items
        ++ state_at line.now script.now shot terminal t) }
    ensures begun { IfOk result (λ n. n ≡ count_begun line.now script.now terminal (t + 1)) }
    ensures few { IfOk result (λ n. n ≤ t + 1) }
{
    if begins(line, script, terminal, t) {
        push_state(alloc, text, line, script, shot, terminal, t, begun)?;
        Ok(begun + 1)
    } else {
        Ok(begun)
    }
}

// Appends the state that begins at a tick.
#[tactic(auto, unfolding(crate::specs::States::state_record))]
fn push_state<'a>(
    alloc: Global,
    text: &mut Vec<u8>,
    line: &'a Line,
    script: &'a Script,
    shot: usize,
    terminal: u32,
    t: u32,
    begun: u32,
) -> Result<(), Memory>
    requires tick { t < line.now.horizon }
    requires begun { begun ≡ count_begun line.now script.now terminal t }
    requires few { begun ≤ t }
    ensures { OnOk result (text.new.items ≡ text.old.items
        ++ row_text default_writer (state_record line.now script.now shot terminal t)) }
{
    let (mut first, mut second) = (Buffer::new(), Buffer::new());
    let next = next_from(line, script, terminal, t + 1);
    let from = ticks_words(alloc, line.tick_us, t)?;
    let lasts = ticks_words(alloc, line.tick_us, next.saturating_sub(t))?;
    let lost = lost_text(alloc, line, script, terminal, t)?;
    let name: &'a [u8] = name_of_terminal(line, terminal);
    let script_name = script.name;
    let z1: &'a [u8] = level_word(sees(script, terminal, t, Element::Z1));
    let z2: &'a [u8] = level_word(sees(script, terminal, t, Element::Z2));
    let rv: &'a [u8] = level_word(sees(script, terminal, t, Element::Rv));
    let uv: &'a [u8] = level_word(sees(script, terminal, t, Element::Uv));
    let cur: &'a [u8] = level_word(sees(script, terminal, t, Element::Cur));
    push_record(
        alloc,
        text,
        &[
            first.format(shot).as_bytes(),
            script_name.bytes(),
            name,
            second.format(begun + 1).as_bytes(),
            from.as_slice(),
            lasts.as_slice(),
            z1,
            z2,
            rv,
            uv,
            cur,
            lost.as_slice(),
        ],
    )
}

/// A time in milliseconds.
pub fn ticks_words(alloc: Global, tick_us: u32, ticks: u32) -> Result<Vec<u8>, Memory>
    ensures { IfOk result (λ text. text.items ≡ ticks_text tick_us ticks) }
{
    let mut text = Vec::new(alloc);
    push_ticks(&mut text, tick_us, ticks)?;
    Ok(text)
}

// The senders of the channels to a terminal that are lost at a tick.
fn lost_text(
    alloc: Global,
    line: &Line,
    script: &Script,
    terminal: u32,
    t: u32,
) -> Result<Vec<u8>, Memory>
    ensures { IfOk result (λ text. text.items ≡ lost_words line.now script.now terminal t
        (length line.now.channels.items)) }
{
    let mut text = Vec::new(alloc);
    for c in 0..line.channels.len() {
        if loses(line, script, terminal, t, c) {
            push_behind(&mut text, name_of_terminal(line, line.channels[c].from))?;
        }
    }
    Ok(text)
}

// Appends a word, with `;` between it and what stands before it.
fn push_behind(text: &mut Vec<u8>, word: &[u8]) -> Result<(), Memory>
    ensures { OnOk result (text.new.items ≡ behind text.old.items word.now) }
{
    if !text.is_empty() {
        text.push(b';')?;
    }
    text.extend_from_slice(word)?;
    Ok(())
}
