//! The key waves of an interval history.

ghost use Rattle.std.specs.Prelude.{◌≡◌, IfOk};
ghost use Rattle.model_line.specs.Parameters.{terminal_count};
ghost use Rattle.judge_verdict.specs.verdict.PairWavesOf.{pair_history};
ghost use Rattle.judge_verdict.specs.verdict.Verdicts.{AreKeys};

use crate::verdict::pair_waves::PairWaves;
use model_line::{Line, Memory};
use run_waves::waves::Runs;
use std::alloc::Global;

/// The key wave of each terminal.
pub fn key_waves(alloc: Global, line: &Line, waves: &PairWaves) -> Result<Vec<Runs>, Memory>
    requires terminals { waves.now.terminals ≡ terminal_count line.now }
    requires horizon { waves.now.horizon ≡ line.now.horizon }
    ensures { IfOk result (λ keys. AreKeys line.now (pair_history waves.now) keys.items) }
{
    let mut keys = Vec::new(alloc);
    for k in 0..line.terminals.len() {
        let wave = waves.key_runs(k as u32).copy(alloc)?;
        keys.push(wave)?;
    }
    Ok(keys)
}
