//! The lines of the facts of a reason.

ghost use Rattle.std.specs.Prelude.{◌≡◌, ◌++◌, OnOk};
ghost use Rattle.call_why.specs.Lines.{fact_line, indent, level_words, lines_of, since_words};
ghost use Rattle.call_why.specs.Lines.{until_words};
ghost use Rattle.call_why.specs.Parts.{part_of};
ghost use Rattle.base_text.specs.lines.Milliseconds.{ticks_text};

use crate::part::Part;
use crate::parts::part_of_gate;
use crate::words::push_part;
use base_text::lines::push_ticks;
use judge_why::Fact;
use model_line::{Line, Memory};
use net_gates::Compiled;
use std::alloc::Global;

/// Appends the lines of the first of these facts whose gates have a name, so many of them at most.
pub fn push_facts(
    alloc: Global,
    text: &mut Vec<u8>,
    compiled: &Compiled<'_>,
    facts: &[Fact],
    room: u32,
) -> Result<(), Memory>
    ensures { OnOk result (text.new.items ≡ text.old.items ++ lines_of compiled.now.line.now
        (part_of compiled.now.line.now compiled.now.net.now) facts.now room) }
{
    match facts {
        [] => Ok(()),
        [fact, more @ ..] => {
            if room == 0 {
                return Ok(());
            }
            match part_of_gate(alloc, compiled, fact.gate)? {
                Some(part) => {
                    push_fact(text, compiled.line, part, fact)?;
                    push_facts(alloc, text, compiled, more, room - 1)
                }
                None => push_facts(alloc, text, compiled, more, room),
            }
        }
    }
}

// Appends the line of a fact.
#[tactic(auto, unfolding(crate::specs::Lines::fact_line))]
fn push_fact(text: &mut Vec<u8>, line: &Line, part: Part, fact: &Fact) -> Result<(), Memory>
    ensures { OnOk result (text.new.items ≡ text.old.items ++ fact_line line.now part fact.now) }
{
    push_indent(text, fact.depth)?;
    push_part(text, line, part)?;
    push_level(text, fact.level)?;
    push_ticks(text, line.tick_us, fact.tick)?;
    push_since(text, line, fact.from)?;
    push_until(text, line, fact.to)
}

fn push_indent(text: &mut Vec<u8>, depth: u32) -> Result<(), Memory>
    ensures { OnOk result (text.new.items ≡ text.old.items ++ indent depth) }
{
    let mut deep = 0;
    'steps: while deep < depth {
        text.extend_from_slice(b"  ")?;
        deep += 1;
    }
    Ok(())
}

fn push_level(text: &mut Vec<u8>, level: bool) -> Result<(), Memory>
    ensures { OnOk result (text.new.items ≡ text.old.items ++ level_words level) }
{
    let words: &[u8] = if level { b" is on at " } else { b" is off at " };
    text.extend_from_slice(words)?;
    Ok(())
}

// Appends since when it is so.
fn push_since(text: &mut Vec<u8>, line: &Line, from: u32) -> Result<(), Memory>
    ensures { OnOk result (text.new.items ≡ text.old.items ++ since_words line.now from) }
{
    if from == 0 {
        text.extend_from_slice(b" ms (from the start")?;
        Ok(())
    } else {
        push_time(text, b" ms (since ", line, from, b" ms")
    }
}

// Appends until when.
fn push_until(text: &mut Vec<u8>, line: &Line, to: u32) -> Result<(), Memory>
    ensures { OnOk result (text.new.items ≡ text.old.items ++ until_words line.now to) }
{
    if to == line.horizon {
        text.extend_from_slice(b", to the end)\n")?;
        Ok(())
    } else {
        push_time(text, b", until ", line, to, b" ms)\n")
    }
}

/// Appends so many ticks in milliseconds, between these words.
pub fn push_time(
    text: &mut Vec<u8>,
    before: &[u8],
    line: &Line,
    ticks: u32,
    behind: &[u8],
) -> Result<(), Memory>
    ensures { OnOk result (text.new.items ≡ text.old.items
        ++ (before.now ++ ticks_text line.now.tick_us ticks ++ behind.now)) }
{
    text.extend_from_slice(before)?;
    push_ticks(text, line.tick_us, ticks)?;
    text.extend_from_slice(behind)?;
    Ok(())
}
