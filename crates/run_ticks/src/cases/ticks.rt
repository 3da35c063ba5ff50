//! All ticks of a run.

ghost use Rattle.std.specs.Prelude.{◌≡◌, ℕ, ◌<◌, ◌*◌, length, IfOk};
ghost use Rattle.model_logic.specs.PairMean.{PairWorld, PairSignals};
ghost use Rattle.model_logic.specs.Choice.{pair_world_of};
ghost use Rattle.run_step.specs.Ticks.{ValuesTold};
ghost use Rattle.run_ticks.specs.{cases.Given.span_box, cases.Masks.Levels, cases.Ticks.under_pairs, cases.Ticks.own_pairs};
ghost use Rattle.run_ticks.specs.cases.Runs.{CanRunUnder, PutUnder, AreKeysUnder};

use crate::cases::delays::fresh_delays;
use crate::cases::mask::Masks;
use crate::cases::present::show_at;
use crate::cases::walk::walk;
use model_line::{Memory, Script};
use net_gates::Compiled;
use net_gates::laws::gates_stand_for_their_trees;
use run_signal::{Carried, Timed};
use run_step::{extend_within, fresh_cells, fresh_tracks, send_all};
use std::alloc::Global;

/// The values of all gates, tick after tick: their own, and with what is put.
#[derive(Drop)]
pub struct Told<V: Copy> {
    pub owns: Vec<V>,
    pub values: Vec<V>,
}

/// Runs all ticks. All memory is taken before the first tick.
pub fn run_ticks<V: Timed + Carried>(
    alloc: Global,
    compiled: &Compiled<'_>,
    script: &Script,
    spans: &[V::Span],
    masks: &Masks<V>,
) -> Result<Told<V>, Memory>
    requires { CanRunUnder V.signal compiled.now.line.now compiled.now.net.now spans.now masks.now }
    ensures count { IfOk result (λ told.
        length told.values.items ≡ compiled.now.line.now.horizon * length
        compiled.now.net.now.gates) }
    ensures own_count { IfOk result (λ told.
        length told.owns.items ≡ compiled.now.line.now.horizon * length
        compiled.now.net.now.gates) }
    ensures told { IfOk result (λ told. (lane : ℕ) (level : Levels) (keys : PairSignals) →
        lane < V.signal.lanes →
        PutUnder V.signal level compiled.now.line.now compiled.now.net.now masks.now →
        let w : PairWorld = pair_world_of compiled.now.line.now script.now
        (span_box V.signal.ends compiled.now.line.now spans.now lane) in
        AreKeysUnder compiled.now.line.now (level lane) w keys →
        ValuesTold V.signal.rails lane (under_pairs (level lane) w keys compiled.now.net.now.gates)
        (length compiled.now.net.now.gates) told.values.items
        × ValuesTold V.signal.rails lane (own_pairs (level lane) w keys compiled.now.net.now.gates)
        (length compiled.now.net.now.gates) told.owns.items) }
{
    gates_stand_for_their_trees();
    let width = compiled.net.len() as usize;
    let mut own_column: Vec<V> = Vec::with_capacity(alloc, width)?;
    let mut column: Vec<V> = Vec::with_capacity(alloc, width)?;
    let mut owns: Vec<V> = Vec::with_capacity(alloc, compiled.line.horizon as usize * width)?;
    let mut values: Vec<V> = Vec::with_capacity(alloc, compiled.line.horizon as usize * width)?;
    let delays = fresh_delays::<V>(alloc, compiled.line, spans)?;
    let mut present = Vec::with_capacity(alloc, script.spans.len())?;
    let mut sent = fresh_tracks::<V>(
        alloc,
        compiled.net.key_gates().len() as u32,
        compiled.line.horizon,
    )?;
    let mut cells = fresh_cells::<V>(alloc, compiled.net, compiled.line, spans)?;
    for t in 0..compiled.line.horizon {
        show_at(&script.spans, &mut present, t);
        walk::<V>(
            compiled.net,
            masks,
            &mut cells,
            &mut own_column,
            &mut column,
            compiled.line,
            present.as_slice(),
            delays.as_slice(),
            sent.as_slice(),
            t,
        );
        send_all(
            compiled.net.key_gates(),
            column.as_slice(),
            &mut sent,
            compiled.line.horizon,
            t,
            1,
        );
        extend_within(&mut owns, own_column.as_slice());
        extend_within(&mut values, column.as_slice());
    }
    Ok(Told { owns, values })
}
