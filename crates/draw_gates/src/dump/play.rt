//! The run of a timing over a script.

ghost use Rattle.std.specs.Prelude.{◌≡◌, ◌<◌, ℕ, length, IfOk};
ghost use Rattle.model_logic.specs.Histories.{History, IsLineHistory, IsSameHistory};
ghost use Rattle.model_timing.specs.{Inside.IsTimingInside, Choice.timing_choice};
ghost use Rattle.run_step.specs.{Played.is_on, Played.played, Runs.AreWavesOf};
ghost use Rattle.draw_gates.specs.dump.GateValues.{gate_levels};

use model_line::{Memory, Script};
use model_logic::laws::each_choice_has_one_history;
use model_timing::NamedTiming;
use net_gates::Compiled;
use run_signal::Level;
use run_step::laws::a_timing_is_one_choice;
use run_ticks::net::{Waves, run};
use std::alloc::Global;

/// The run of a timing over a script.
pub fn play_waves(
    alloc: Global,
    compiled: &Compiled<'_>,
    script: &Script,
    timing: &NamedTiming,
) -> Result<Waves<Level>, Memory>
    requires inside { IsTimingInside compiled.now.line.now timing.now.timing }
    ensures of_net { IfOk result (λ waves.
        AreWavesOf compiled.now.net.now compiled.now.line.now waves) }
    // Keys and trips are those of the line's history at the timing's choice,
    ensures played { IfOk result (λ waves. (h : History) →
        IsLineHistory compiled.now.line.now script.now
        (timing_choice compiled.now.line.now timing.now.timing) h →
        IsSameHistory compiled.now.line.now (played waves) h) }
    // and each gate has the value of its tree in it.
    ensures gates { IfOk result (λ waves. (h : History) →
        IsLineHistory compiled.now.line.now script.now
        (timing_choice compiled.now.line.now timing.now.timing) h →
        (gate t : ℕ) → gate < length compiled.now.net.now.gates →
        t < compiled.now.line.now.horizon →
        is_on waves gate t
        ≡ gate_levels compiled.now.line.now script.now
        (timing_choice compiled.now.line.now timing.now.timing) h compiled.now.net.now
        gate t) }
{
    a_timing_is_one_choice();
    each_choice_has_one_history();
    let values = timing.timing.values();
    let steps = timing.timing.steps();
    run::<Level>(alloc, compiled, script, values, steps)
}
