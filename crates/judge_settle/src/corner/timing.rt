//! The worst corner as a timing.

ghost use Rattle.std.specs.Prelude.{◌≡◌, IfOk};
ghost use Rattle.model_line.specs.Parameters.{terminal_count};
ghost use Rattle.model_timing.specs.{Inside.IsTimingInside, Choice.timing_choice};
ghost use Rattle.model_timing.specs.Choice.{IsSameChoice};
ghost use Rattle.judge_verdict.specs.verdict.PairWavesOf.{pair_history};
ghost use Rattle.judge_settle.specs.corner.Named.{rail_named};
ghost use Rattle.judge_settle.specs.corner.Corner.{corner};

use crate::corner::numbers::worst_numbers;
use crate::corner::rail::Rail;
use crate::corner::steps::worst_steps;
use judge_verdict::verdict::PairWaves;
use model_line::laws::declared_intervals_are_in_order;
use model_line::{Line, Memory};
use model_timing::Timing;
use std::alloc::Global;

/// The worst timing over the interval history of a script, where trips are read on this rail: each
/// number at its end, each delay at each tick the last of its interval with which what arrives is
/// what the rail says, as steps where it changes.
pub fn worst_timing(
    alloc: Global,
    line: &Line,
    waves: &PairWaves,
    rail: Rail,
) -> Result<Timing, Memory>
    requires terminals { waves.now.terminals ≡ terminal_count line.now }
    requires horizon { waves.now.horizon ≡ line.now.horizon }
    ensures inside { IfOk result (λ timing. IsTimingInside line.now timing) }
    // Over the run it is the worst choice.
    ensures worst { IfOk result (λ timing. IsSameChoice line.now (timing_choice line.now timing)
        (corner line.now (rail_named rail) (pair_history waves.now))) }
{
    declared_intervals_are_in_order();
    let numbers = worst_numbers(alloc, line, rail)?;
    let values = numbers.as_slice();
    let steps = worst_steps(alloc, line, waves, rail, values)?;
    Ok(Timing::with_steps(numbers, steps))
}
