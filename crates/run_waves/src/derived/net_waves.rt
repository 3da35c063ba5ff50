//! The waves of all gates of a net, over claimed keys.

ghost use Rattle.std.specs.Prelude.{IfOk};
ghost use Rattle.model_line.specs.Parameters.{terminal_count};
ghost use Rattle.run_waves.specs.waves.Waves.{AreWaves};
ghost use Rattle.run_waves.specs.derived.Claims.{AreGateWaves, pairs_of};

use crate::derived::gate::gate_wave;
use crate::waves::Runs;
use model_history::rails_laws::rails_read_the_past;
use model_line::{Memory, Script};
use net_gates::{Compiled, GateId};
use run_step::laws::gates_have_their_kind;
use std::alloc::Global;

/// A wave of the horizon's length for each gate, in the order of the net: at each tick the pair
/// that the interval rules give the gate's formula over the declared intervals, where the keys that
/// are received are those handed in, one wave for each terminal.
pub fn gate_waves(
    alloc: Global,
    compiled: &Compiled<'_>,
    script: &Script,
    keys: &[Runs],
) -> Result<Vec<Runs>, Memory>
    requires keys { AreWaves (terminal_count compiled.now.line.now) compiled.now.line.now.horizon
        keys.now }
    ensures { IfOk result (λ waves.
        AreGateWaves compiled.now.line.now script.now compiled.now.net.now.gates (pairs_of
        keys.now) waves.items) }
{
    rails_read_the_past();
    gates_have_their_kind();
    let mut waves = Vec::with_capacity(alloc, compiled.net.len() as usize)?;
    for i in 0..compiled.net.len() {
        let gate = compiled.net.gate(GateId(i));
        let wave = gate_wave(alloc, gate, compiled.line, script, keys, waves.as_slice())?;
        waves.push(wave)?;
    }
    Ok(waves)
}
