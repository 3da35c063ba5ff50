//! Stretches of one value.

ghost use Rattle.std.specs.Prelude.{◌≡◌, ◌≢◌, ◌<◌, ◌≤◌, ℕ, IfOk};
ghost use Rattle.model_history.specs.Rails.{both};
ghost use Rattle.model_line.specs.Parameters.{terminal_count};
ghost use Rattle.run_signal.specs.Terns.{tern_rails};
ghost use Rattle.draw_run.specs.{diagram.Stretches.AreStretches, diagram.Traces.IsTraceOf, diagram.Traces.trace_pair};

use crate::diagram::shown::Shown;
use crate::diagram::trace::Trace;
use model_line::{Line, Memory, Script, loss, seen};
use run_signal::Tern;
use std::alloc::Global;

/// The ticks t with `from <= t < to`, at which a row is off, on, or open: off or on as the delays
/// are.
#[derive(Clone, Copy)]
pub struct Stretch {
    pub from: u32,
    pub to: u32,
    pub value: Tern,
}

/// The stretches of a row, from tick 0 to the horizon. Each is as long as it can be: the value
/// changes where one ends and the next begins, and nowhere else.
pub fn stretches<H: Shown>(
    alloc: Global,
    line: &Line,
    script: &Script,
    shown: &H,
    trace: Trace,
) -> Result<Vec<Stretch>, Memory>
    requires terminals { H.terminals shown.now ≡ terminal_count line.now }
    requires ticks { H.ticks shown.now ≡ line.now.horizon }
    requires trace { IsTraceOf line.now (H.gates shown.now) trace }
    ensures { IfOk result (λ all.
        AreStretches (trace_pair script.now (H.pairs shown.now) trace)
        0 all.items line.now.horizon) }
{
    let mut all = Vec::new(alloc);
    let mut from = 0;
    while from < line.horizon {
        let value = value_at(line, script, shown, trace, from);
        let to = end_of(line, script, shown, trace, from, value);
        all.push(Stretch { from, to, value })?;
        from = to;
    }
    Ok(all)
}

// The value of a row at a tick.
fn value_at<H: Shown>(line: &Line, script: &Script, shown: &H, trace: Trace, t: u32) -> Tern
    requires terminals { H.terminals shown.now ≡ terminal_count line.now }
    requires ticks { H.ticks shown.now ≡ line.now.horizon }
    requires trace { IsTraceOf line.now (H.gates shown.now) trace }
    requires tick { t < line.now.horizon }
    ensures { tern_rails result ≡ trace_pair script.now (H.pairs shown.now) trace t }
{
    match trace {
        Trace::Seen(place) => known(seen(script, place, t)),
        Trace::Lost(channel) => known(loss(script, channel, t)),
        Trace::Logic(_, gate) => shown.gate_at(gate, t),
        Trace::Key(terminal) => shown.key_at(terminal, t),
        Trace::Trip(terminal) => shown.trip_at(terminal, t),
    }
}

fn known(value: bool) -> Tern
    ensures { tern_rails result ≡ both value }
{
    if value { Tern::One } else { Tern::Zero }
}

// The first tick behind `from` at which the row has another value, or the horizon.
fn end_of<H: Shown>(
    line: &Line,
    script: &Script,
    shown: &H,
    trace: Trace,
    from: u32,
    value: Tern,
) -> u32
    requires terminals { H.terminals shown.now ≡ terminal_count line.now }
    requires ticks { H.ticks shown.now ≡ line.now.horizon }
    requires trace { IsTraceOf line.now (H.gates shown.now) trace }
    requires from { from < line.now.horizon }
    requires value { tern_rails value
        ≡ trace_pair script.now (H.pairs shown.now) trace from }
    ensures after { from < result }
    ensures within { result ≤ line.now.horizon }
    ensures same { (t : ℕ) → from ≤ t → t < result →
        trace_pair script.now (H.pairs shown.now) trace t ≡ tern_rails value }
    ensures other { result < line.now.horizon →
        trace_pair script.now (H.pairs shown.now) trace result ≢ tern_rails value }
{
    for t in from + 1..line.horizon {
        if value_at(line, script, shown, trace, t) != value {
            return t;
        }
    }
    line.horizon
}
