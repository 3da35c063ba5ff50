//! Timings with a number changed, or a step left out.

ghost use Rattle.std.specs.Prelude.{◌≡◌, ◌≤◌, ◌<◌, ◌||◌, IfOk, length};
ghost use Rattle.judge_settle.specs.corner.Cuts.{number, with_number as number_changed};
ghost use Rattle.judge_settle.specs.corner.Cuts.{without_step as step_left_out};

use crate::corner::proved::steps_stay_in_order;
use model_line::Memory;
use model_timing::Timing;
use run_signal::Tick;
use std::alloc::Global;

/// The number of a parameter.
pub fn number_of(timing: &Timing, param: u32) -> u32
    requires { param < length timing.now.values }
    ensures { result ≡ number timing.now param }
{
    timing.values()[param as usize].value()
}

/// One of the two, or both.
pub(crate) fn either(one: bool, other: bool) -> bool
    ensures { result ≡ (one || other) }
{
    one || other
}

/// The timing with another number of a parameter.
pub fn with_number(
    alloc: Global,
    timing: &Timing,
    param: u32,
    number: u32,
) -> Result<Timing, Memory>
    requires param { param < length timing.now.values }
    requires number { number ≤ 4000 }
    ensures { IfOk result (λ changed. changed ≡ number_changed timing.now param number) }
{
    let mut changed = timing.copy(alloc)?;
    changed.set(param, Tick::new(number));
    Ok(changed)
}

/// The timing without step j.
pub fn without_step(alloc: Global, timing: &Timing, j: usize) -> Result<Timing, Memory>
    requires { j < length timing.now.steps }
    ensures { IfOk result (λ changed. changed ≡ step_left_out timing.now j) }
{
    steps_stay_in_order();
    let values = Vec::from_slice(alloc, timing.values())?;
    let mut steps = Vec::from_slice(alloc, timing.steps())?;
    let _left = steps.remove(j);
    Ok(Timing::with_steps(values, steps))
}
