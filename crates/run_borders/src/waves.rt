//! The waves over two scripts.

ghost use Rattle.std.specs.Prelude.{IfOk};
ghost use Rattle.run_borders.specs.LooseRuns.{CanRun};
ghost use Rattle.run_borders.specs.LooseWaves.{AreLooseWaves};

use crate::keys::{are_derived, derived_keys, no_keys};
use crate::net_waves::gate_waves;
use crate::run::LooseRun;
use model_history::laws::history_laws;
use model_line::Memory;
use model_logic::laws::line_laws;
use run_waves::waves::Runs;
use std::alloc::Global;

/// A wave of the horizon's length for each gate, in the order of the net: those of an interval history over
/// both scripts.
pub fn loose_waves(alloc: Global, run: &LooseRun<'_>) -> Result<Vec<Runs>, Memory>
    requires { CanRun run.now }
    ensures { IfOk result (λ waves. AreLooseWaves run.now waves.items) }
{
    history_laws();
    line_laws();
    let line = run.compiled.line;
    let net = run.compiled.net;
    let count = line.terminals.len() as u32;
    let mut keys = no_keys(alloc, count, line.horizon)?;
    let mut waves = gate_waves(alloc, run, keys.as_slice())?;
    for _ in 0..line.horizon {
        if are_derived(net, count, waves.as_slice(), keys.as_slice()) {
            return Ok(waves);
        }
        keys = derived_keys(alloc, net, count, waves.as_slice())?;
        waves = gate_waves(alloc, run, keys.as_slice())?;
    }
    Ok(waves)
}
