//! All ticks of a run.

ghost use Rattle.std.specs.Prelude.{◌≡◌, ℕ, ◌<◌, ◌*◌, length, IfOk};
ghost use Rattle.run_step.specs.{Lanes.line_lane, Ticks.ValuesTold, Runs.CanRun};

use crate::net::inputs::{fresh_inputs, turn};
use crate::net::walk::walk;
use model_line::{Memory, Script};
use model_logic::laws::line_laws;
use net_gates::laws::gates_stand_for_their_trees;
use run_signal::{Carried, Timed};
use run_step::{Moment, Run, extend_within, fresh_cells, fresh_tracks, send_all};
use std::alloc::Global;

/// The values of all gates, tick after tick. All memory is taken before the first tick.
pub fn run_ticks<V: Timed + Carried>(
    alloc: Global,
    run: &Run<'_, V::Span>,
    script: &Script,
) -> Result<Vec<V>, Memory>
    requires { CanRun V.signal run.now }
    ensures count { IfOk result (λ values.
        length values.items ≡ run.now.compiled.now.line.now.horizon
        * length run.now.compiled.now.net.now.gates) }
    ensures told { IfOk result (λ values. (lane : ℕ) → lane < V.signal.lanes →
        ValuesTold V.signal.rails lane (line_lane V.signal.ends run.now script.now lane).pairs
        (length run.now.compiled.now.net.now.gates) values.items) }
{
    line_laws();
    gates_stand_for_their_trees();
    let compiled = run.compiled;
    let width = compiled.net.len() as usize;
    let mut column: Vec<V> = Vec::with_capacity(alloc, width)?;
    let mut values: Vec<V> = Vec::with_capacity(alloc, compiled.line.horizon as usize * width)?;
    let mut sent = fresh_tracks::<V>(
        alloc,
        compiled.net.key_gates().len() as u32,
        compiled.line.horizon,
    )?;
    let mut cells = fresh_cells::<V>(alloc, compiled.net, compiled.line, run.spans)?;
    let mut inputs = fresh_inputs::<V>(alloc, run, script)?;
    for t in 0..compiled.line.horizon {
        turn::<V>(run, &mut inputs, t);
        let moment = Moment {
            line: compiled.line,
            delays: inputs.delays.as_slice(),
            sent: sent.as_slice(),
            t,
        };
        walk::<V>(
            compiled.net,
            &mut cells,
            &mut column,
            inputs.shown.present(),
            &moment,
        );
        send_all(
            compiled.net.key_gates(),
            column.as_slice(),
            &mut sent,
            compiled.line.horizon,
            t,
            1,
        );
        extend_within(&mut values, column.as_slice());
    }
    Ok(values)
}
