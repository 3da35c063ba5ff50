//! Where a step of a parameter and a tick has its place among ascending steps. It is looked for by
//! halves.

ghost use Rattle.std.specs.Prelude.{◌≡◌, ◌≤◌, ◌&&◌, ◌==◌, IsTrue, IsFalse, length};
ghost use Rattle.std.specs.List.{list_any};
ghost use Rattle.std.specs.List.Sorted.{IsPartitionPoint};
ghost use Rattle.model_timing.specs.Timing.{ascend, is_passed};

use crate::step::Step;
use run_signal::Tick;

/// How many of the steps are of an earlier parameter, or of this one and not after the tick.
pub fn place_after(steps: &[Step<Tick>], param: u32, from: u32) -> usize
    requires { IsTrue (ascend steps.now) }
    ensures parted { IsPartitionPoint (λ s. IsTrue (is_passed param from s))
        (λ s. IsFalse (is_passed param from s)) steps.now result }
    ensures within { result ≤ length steps.now }
{
    steps.partition_point(|s| has_passed(s, param, from))
}

/// Whether the parameter has a step at the tick.
pub fn has_step(steps: &[Step<Tick>], param: u32, from: u32) -> bool
    requires { IsTrue (ascend steps.now) }
    ensures { result ≡ list_any (λ s. (s.param == param) && (s.from == from)) steps.now }
{
    let place = place_after(steps, param, from);
    if place == 0 {
        return false;
    }
    is_at(&steps[place - 1], param, from)
}

// Whether a step is of the parameter and at the tick.
fn is_at(step: &Step<Tick>, param: u32, from: u32) -> bool
    ensures { result ≡ ((step.now.param == param) && (step.now.from == from)) }
{
    step.param == param && step.from == from
}

// Whether a step is of an earlier parameter, or of this one and not after the tick.
fn has_passed(step: &Step<Tick>, param: u32, from: u32) -> bool
    ensures { result ≡ is_passed param from step.now }
{
    step.param < param || (step.param == param && step.from <= from)
}
