//! The rows of a diagram.

ghost use Rattle.std.specs.Prelude.{◌≡◌, map, length, IfOk};
ghost use Rattle.std.specs.List.{All};
ghost use Rattle.model_line.specs.Parameters.{terminal_count};
ghost use Rattle.draw_run.specs.diagram.Diagrams.{IsMarkedRow, trace_of};
ghost use Rattle.draw_run.specs.diagram.Traces.{traces_of, IsTraceOf};

use crate::diagram::delay_steps::marks;
use crate::diagram::drawn::is_drawn;
use crate::diagram::shown::Shown;
use crate::diagram::stretch::{Stretch, stretches};
use crate::diagram::trace::{Trace, traces};
use draw_shapes::Rows;
use model_line::{Line, Memory, Script};
use model_timing::Step;
use net_gates::Compiled;
use run_signal::Tick;
use std::alloc::Global;

/// What a row is of, its stretches from tick 0 to the horizon, the ticks at which the delay of its
/// channel has a step, and whether it is one of those that are drawn.
#[derive(Drop)]
pub struct Row {
    pub trace: Trace,
    pub stretches: Vec<Stretch>,
    pub marks: Vec<u32>,
    pub is_drawn: bool,
}

/// The rows of a line, in the order of its traces.
pub fn rows<H: Shown>(
    alloc: Global,
    compiled: &Compiled<'_>,
    script: &Script,
    shown: &H,
    steps: &[Step<Tick>],
    which: Rows,
) -> Result<Vec<Row>, Memory>
    requires terminals { H.terminals shown.now ≡ terminal_count compiled.now.line.now }
    requires ticks { H.ticks shown.now ≡ compiled.now.line.now.horizon }
    requires gates { H.gates shown.now ≡ length compiled.now.net.now.gates }
    ensures traces { IfOk result (λ rows.
        map trace_of rows.items ≡ traces_of compiled.now.line.now compiled.now.net.now.gates) }
    ensures rows { IfOk result (λ rows.
        All (IsMarkedRow compiled.now.line.now script.now (H.pairs shown.now) steps.now which)
        rows.items) }
{
    let traces = traces(alloc, compiled)?;
    rows_of(
        alloc,
        compiled.line,
        script,
        shown,
        traces.as_slice(),
        steps,
        which,
    )
}

// The rows of these traces, in their order.
fn rows_of<H: Shown>(
    alloc: Global,
    line: &Line,
    script: &Script,
    shown: &H,
    traces: &[Trace],
    steps: &[Step<Tick>],
    which: Rows,
) -> Result<Vec<Row>, Memory>
    requires terminals { H.terminals shown.now ≡ terminal_count line.now }
    requires ticks { H.ticks shown.now ≡ line.now.horizon }
    requires of_line { All (IsTraceOf line.now (H.gates shown.now)) traces.now }
    ensures traces { IfOk result (λ rows. map trace_of rows.items ≡ traces.now) }
    ensures rows { IfOk result (λ rows.
        All (IsMarkedRow line.now script.now (H.pairs shown.now) steps.now which) rows.items) }
{
    let mut all = Vec::new(alloc);
    for trace in traces {
        all.push(row_of(alloc, line, script, shown, *trace, steps, which)?)?;
    }
    Ok(all)
}

fn row_of<H: Shown>(
    alloc: Global,
    line: &Line,
    script: &Script,
    shown: &H,
    trace: Trace,
    steps: &[Step<Tick>],
    which: Rows,
) -> Result<Row, Memory>
    requires terminals { H.terminals shown.now ≡ terminal_count line.now }
    requires ticks { H.ticks shown.now ≡ line.now.horizon }
    requires of_line { IsTraceOf line.now (H.gates shown.now) trace }
    ensures trace { IfOk result (λ row. row.trace ≡ trace) }
    ensures row { IfOk result
        (IsMarkedRow line.now script.now (H.pairs shown.now) steps.now which) }
{
    let stretches = stretches(alloc, line, script, shown, trace)?;
    let marks = marks(alloc, line, steps, trace)?;
    let is_drawn = is_drawn(which, trace, stretches.as_slice(), marks.as_slice());
    Ok(Row {
        trace,
        stretches,
        marks,
        is_drawn,
    })
}
