//! The waves of all gates of an interval history.

ghost use Rattle.std.specs.Prelude.{◌≡◌, IfOk};
ghost use Rattle.model_line.specs.Parameters.{terminal_count};
ghost use Rattle.judge_verdict.specs.verdict.PairWavesOf.{pair_history};
ghost use Rattle.judge_verdict.specs.verdict.Verdicts.{AreKeys};
ghost use Rattle.judge_races.specs.Lasting.{AreHistoryWaves};

use judge_verdict::verdict::{PairWaves, analyse};
use model_line::{Line, Memory, Script};
use model_logic::laws::{each_line_has_a_choice_inside, values_rest_on_earlier_keys};
use net_gates::Compiled;
use net_gates::laws::gates_stand_for_their_trees;
use run_waves::derived::gate_waves;
use run_waves::waves::Runs;
use std::alloc::Global;

/// The waves of all gates of a net over a script, for all choices in the declared intervals at once.
pub fn history_waves(
    alloc: Global,
    compiled: &Compiled<'_>,
    script: &Script,
) -> Result<Vec<Runs>, Memory>
    ensures { IfOk result (λ waves. AreHistoryWaves compiled.now.line.now script.now
        compiled.now.net.now.gates waves.items) }
{
    each_line_has_a_choice_inside();
    values_rest_on_earlier_keys();
    gates_stand_for_their_trees();
    let found = analyse(alloc, compiled, script)?;
    let keys = key_waves(alloc, compiled.line, &found)?;
    let waves = gate_waves(alloc, compiled, script, &keys)?;
    Ok(waves)
}

// The key wave of each terminal.
fn key_waves(alloc: Global, line: &Line, waves: &PairWaves) -> Result<Vec<Runs>, Memory>
    requires terminals { waves.now.terminals ≡ terminal_count line.now }
    requires horizon { waves.now.horizon ≡ line.now.horizon }
    ensures { IfOk result (λ keys. AreKeys line.now (pair_history waves.now) keys.items) }
{
    let mut keys = Vec::new(alloc);
    for k in 0..line.terminals.len() {
        let wave = waves.key_runs(k as u32).copy(alloc)?;
        keys.push(wave)?;
    }
    Ok(keys)
}
