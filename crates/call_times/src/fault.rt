//! What is told of a fault.

ghost use Rattle.std.specs.Prelude.{◌≡◌, IfOk};
ghost use Rattle.std.specs.List.{All};
ghost use Rattle.model_fine.specs.Onward.{IsPlayedOn};
ghost use Rattle.judge_verdict.specs.verdict.Spans.{declared_spans as spans_of};
ghost use Rattle.file_borders.specs.Studies.{IsAnswerable};
ghost use Rattle.call_times.specs.Times.{Adds, OfFault, OfFaults};

use crate::found::{Found, both, nothing};
use crate::played::played_on;
use crate::terminals::push_terminals;
use file_borders::LooseFault;
use judge_borders::{Asked, Fault};
use judge_times::Uncertain;
use judge_verdict::verdict::declared_spans;
use model_line::Memory;
use model_line::laws::delays_are_parameters;
use net_compile::compile;
use net_gates::Compiled;
use run_signal::Within;
use std::alloc::Global;

/// Appends the records of faults, one after another, of each after at most so many analyses.
pub(crate) fn push_faults(
    alloc: Global,
    text: &mut Vec<u8>,
    exact: &Compiled<'_>,
    faults: &[LooseFault],
    analyses: u32,
) -> Result<Found, Memory>
    requires { All (IsAnswerable exact.now.line.now) faults.now }
    ensures { IfOk result (Adds (OfFaults exact.now.line.now faults.now) text.old.items text.new.items) }
{
    match faults {
        [] => Ok(nothing()),
        [fault, more @ ..] => {
            let first = push_fault(alloc, text, exact, fault, analyses)?;
            let others = push_faults(alloc, text, exact, more, analyses)?;
            Ok(both(first, others))
        }
    }
}

// Appends the records of a fault at each terminal.
fn push_fault(
    alloc: Global,
    text: &mut Vec<u8>,
    exact: &Compiled<'_>,
    fault: &LooseFault,
    analyses: u32,
) -> Result<Found, Memory>
    requires { IsAnswerable exact.now.line.now fault.now }
    ensures { IfOk result (Adds (OfFault exact.now.line.now fault.now) text.old.items text.new.items) }
{
    let long = played_on(alloc, exact.line, fault.part.as_slice())?;
    let net = compile(alloc, &long)?;
    let compiled = Compiled {
        line: &long,
        net: &net,
    };
    let spans = declared_spans(alloc, exact.line)?;
    push_over(
        alloc,
        text,
        &compiled,
        spans.as_slice(),
        exact,
        fault,
        analyses,
    )
}

// The same over the line that is played on.
fn push_over<'a>(
    alloc: Global,
    text: &mut Vec<u8>,
    compiled: &'a Compiled<'a>,
    spans: &'a [Within],
    exact: &'a Compiled<'a>,
    fault: &'a LooseFault,
    analyses: u32,
) -> Result<Found, Memory>
    requires can { IsAnswerable exact.now.line.now fault.now }
    requires on { IsPlayedOn exact.now.line.now compiled.now.line.now }
    requires spans { spans.now ≡ spans_of exact.now.line.now }
    ensures { IfOk result (Adds (OfFault exact.now.line.now fault.now) text.old.items text.new.items) }
{
    delays_are_parameters();
    let of = Uncertain {
        fault: Fault {
            compiled,
            spans,
            script: &fault.script,
            asked: Asked {
                kind: fault.kind,
                counted: 0,
                within: fault.within,
                end: exact.line.horizon,
            },
        },
        exact,
        analyses,
    };
    push_terminals(alloc, text, &of, fault)
}
