//! What is told of a fault at its terminals.

ghost use Rattle.std.specs.Prelude.{◌≡◌, ◌<◌, ◌≤◌, IfOk};
ghost use Rattle.model_line.specs.Parameters.{terminal_count};
ghost use Rattle.judge_times.specs.Answers.{AreAnswers, exact_of};
ghost use Rattle.call_times.specs.Posed.{IsPosed, asked_of};
ghost use Rattle.call_times.specs.Question.{question_of};
ghost use Rattle.call_times.specs.Times.{Adds, AtTerminal, AtTerminals};

use crate::found::{Found, both, nothing};
use crate::rows::push_stretches;
use file_borders::LooseFault;
use judge_borders::laws::each_history_goes_on;
use judge_times::{Part, Uncertain, answers, stretches};
use model_line::Memory;
use std::alloc::Global;

/// Appends the records of a fault at each terminal.
pub(crate) fn push_terminals(
    alloc: Global,
    text: &mut Vec<u8>,
    of: &Uncertain<'_>,
    fault: &LooseFault,
) -> Result<Found, Memory>
    requires posed { IsPosed of.now fault.now.part.items }
    requires same { asked_of of.now fault.now.part.items ≡ question_of (exact_of of.now) fault.now }
    ensures { IfOk result (Adds (AtTerminals (exact_of of.now) fault.now (terminal_count (exact_of of.now)))
        text.old.items text.new.items) }
{
    let answered = answers(alloc, of, fault.part.as_slice())?;
    let parts = answered.parts.as_slice();
    let mut found = nothing();
    for k in 0..of.exact.line.terminals.len() {
        let here = push_terminal(alloc, text, of, fault, parts, k as u32)?;
        found = both(found, here);
    }
    Ok(found)
}

// Appends the records of a fault at a terminal, of which these are the answers.
fn push_terminal(
    alloc: Global,
    text: &mut Vec<u8>,
    of: &Uncertain<'_>,
    fault: &LooseFault,
    parts: &[Part],
    k: u32,
) -> Result<Found, Memory>
    requires posed { IsPosed of.now fault.now.part.items }
    requires same { asked_of of.now fault.now.part.items ≡ question_of (exact_of of.now) fault.now }
    requires answers { AreAnswers of.now fault.now.part.items parts.now }
    requires terminal { k < terminal_count (exact_of of.now) }
    ensures { IfOk result (Adds (AtTerminal (exact_of of.now) fault.now k) text.old.items text.new.items) }
{
    each_history_goes_on();
    let own = stretches(alloc, parts, fault.part.as_slice(), k)?;
    let found = push_stretches(alloc, text, of.exact.line, fault, k, own.as_slice())?;
    Ok(found)
}
