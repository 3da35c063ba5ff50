//! A run under levels.

ghost use Rattle.std.specs.Prelude.{◌≡◌, ℕ, ◌<◌, length, IfOk};
ghost use Rattle.model_logic.specs.PairMean.{PairWorld, PairSignals};
ghost use Rattle.model_logic.specs.Choice.{pair_world_of};
ghost use Rattle.run_ticks.specs.{cases.Given.span_box, cases.Masks.Levels};
ghost use Rattle.run_ticks.specs.cases.Runs.{CanRunUnder, PutUnder, AreKeysUnder, ArePairsUnder};

use crate::cases::mask::Masks;
use crate::cases::ticks::run_ticks;
use crate::cases::waves::UnderWaves;
use model_line::{Memory, Script};
use net_gates::Compiled;
use run_signal::{Carried, Timed};
use std::alloc::Global;

/// Runs the net of a line over a script, from tick 0 to the horizon. A span stands for each
/// parameter, in the order of the line; a gate with a row of masks has at each tick its own value
/// with what the mask of the tick puts, wherever it is read.
pub fn run_under<V: Timed + Carried>(
    alloc: Global,
    compiled: &Compiled<'_>,
    script: &Script,
    spans: &[V::Span],
    masks: &Masks<V>,
) -> Result<UnderWaves<V>, Memory>
    requires { CanRunUnder V.signal compiled.now.line.now compiled.now.net.now spans.now masks.now }
    ensures width { IfOk result (λ waves. waves.width ≡ length compiled.now.net.now.gates) }
    ensures horizon { IfOk result (λ waves. waves.horizon ≡ compiled.now.line.now.horizon) }
    // In each lane each gate has the pairs of its tree over the lane's box, under the levels that
    // the masks put, wherever the keys are pairs of theirs.
    ensures pairs { IfOk result (λ waves. (lane : ℕ) (level : Levels) (keys : PairSignals) →
        lane < V.signal.lanes →
        PutUnder V.signal level compiled.now.line.now compiled.now.net.now masks.now →
        let w : PairWorld = pair_world_of compiled.now.line.now script.now
        (span_box V.signal.ends compiled.now.line.now spans.now lane) in
        AreKeysUnder compiled.now.line.now (level lane) w keys →
        ArePairsUnder V.signal.rails lane (level lane) w keys compiled.now.line.now
        compiled.now.net.now waves) }
{
    let told = run_ticks::<V>(alloc, compiled, script, spans, masks)?;
    Ok(UnderWaves::new(
        compiled.net.len(),
        compiled.line.horizon,
        told.values,
        told.owns,
    ))
}
