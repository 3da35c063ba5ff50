//! The waves of all gates of a net, over keys.

ghost use Rattle.std.specs.Prelude.{IfOk};
ghost use Rattle.model_line.specs.Parameters.{terminal_count};
ghost use Rattle.run_waves.specs.waves.Waves.{AreWaves};
ghost use Rattle.run_waves.specs.derived.Claims.{pairs_of};
ghost use Rattle.run_borders.specs.LooseRuns.{CanRun, line_of};
ghost use Rattle.run_borders.specs.LooseWaves.{AreGateWaves};

use crate::gate::gate_wave;
use crate::run::LooseRun;
use model_history::rails_laws::rails_read_the_past;
use model_line::Memory;
use net_gates::GateId;
use run_step::laws::gates_have_their_kind;
use run_waves::waves::Runs;
use std::alloc::Global;

/// A wave of the horizon's length for each gate, in the order of the net, where the keys that are
/// received are those handed in, one wave for each terminal.
pub(crate) fn gate_waves(
    alloc: Global,
    run: &LooseRun<'_>,
    keys: &[Runs],
) -> Result<Vec<Runs>, Memory>
    requires run { CanRun run.now }
    requires keys { AreWaves (terminal_count (line_of run.now)) (line_of run.now).horizon keys.now }
    ensures { IfOk result (λ waves. AreGateWaves run.now (pairs_of keys.now) waves.items) }
{
    rails_read_the_past();
    gates_have_their_kind();
    let mut waves = Vec::with_capacity(alloc, run.compiled.net.len() as usize)?;
    for i in 0..run.compiled.net.len() {
        let gate = run.compiled.net.gate(GateId(i));
        let wave = gate_wave(alloc, gate, run, keys, waves.as_slice())?;
        waves.push(wave)?;
    }
    Ok(waves)
}
