//! The run of every choice of delays at once.

ghost use Rattle.std.specs.Prelude.{IfOk};
ghost use Rattle.model_logic.specs.Choice.{declared_box};
ghost use Rattle.run_signal.specs.Terns.{tern_rails};
ghost use Rattle.run_step.specs.Runs.{AreWavesOf, HavePairs, IsTheHistory};
ghost use Rattle.run_step.specs.WavesOf.{waves_history};

use judge_verdict::verdict::declared_spans;
use model_line::{Memory, Script};
use model_logic::laws::each_line_has_a_choice_inside;
use model_timing::Step;
use net_gates::Compiled;
use run_signal::{Tern, Within};
use run_ticks::net::{Waves, run};
use std::alloc::Global;

/// Runs the net of a line over a script, for all choices of delays in the declared intervals at
/// once, with every gate kept.
pub fn every_choice_waves(
    alloc: Global,
    compiled: &Compiled<'_>,
    script: &Script,
) -> Result<Waves<Tern>, Memory>
    ensures of_net { IfOk result (λ waves.
        AreWavesOf compiled.now.net.now compiled.now.line.now waves) }
    // Keys and trips are the one interval history over the declared intervals,
    ensures history { IfOk result (λ waves.
        IsTheHistory compiled.now.line.now script.now (declared_box compiled.now.line.now)
        (waves_history (λ x _. tern_rails x) 0 waves)) }
    // and each gate has the pair of its tree over it.
    ensures gates { IfOk result (λ waves.
        HavePairs (λ x _. tern_rails x) 0 compiled.now.line.now script.now
        (declared_box compiled.now.line.now) compiled.now.net.now waves) }
{
    each_line_has_a_choice_inside();
    let spans = declared_spans(alloc, compiled.line)?;
    let steps: [Step<Within>; 0] = [];
    run::<Tern>(alloc, compiled, script, &spans, &steps)
}
