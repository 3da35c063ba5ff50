//! The steps of moving delays, as marks of rows.

ghost use Rattle.std.specs.Prelude.{◌≡◌, ◌++◌, IfOk, OnOk};
ghost use Rattle.std.specs.List.{flat_map};
ghost use Rattle.draw_run.specs.diagram.DelaySteps.{delay_steps, marks_of, role_marks};
ghost use Rattle.draw_run.specs.diagram.DelaySteps.{tick_of_step};
ghost use Rattle.draw_run.specs.diagram.DelayStepLaws.{MarksAreSteps};

use crate::diagram::trace::Trace;
use model_line::{Line, Memory};
use model_plain::Role;
use model_timing::Step;
use run_signal::Tick;
use std::alloc::Global;

/// The marks of a row: where it is what is received over a channel, the ticks of the run at which
/// the channel's delay has a step, in their order.
pub fn marks(
    alloc: Global,
    line: &Line,
    steps: &[Step<Tick>],
    trace: Trace,
) -> Result<Vec<u32>, Memory>
    ensures { IfOk result (λ marks. marks.items ≡ marks_of line.now steps.now trace) }
{
    let mut all = Vec::new(alloc);
    if let Trace::Logic(role, _) = trace {
        push_marks(&mut all, line, steps, role)?;
    }
    Ok(all)
}

fn push_marks(
    all: &mut Vec<u32>,
    line: &Line,
    steps: &[Step<Tick>],
    role: Role,
) -> Result<(), Memory>
    ensures { OnOk result (all.new.items ≡ all.old.items ++ role_marks line.now steps.now role) }
{
    match role {
        Role::Received(c) => push_delay_steps(all, line, steps, c),
        Role::Seen(_)
        | Role::Timed(_)
        | Role::Lost(_)
        | Role::Raw(_)
        | Role::Window(_)
        | Role::Lockout(_)
        | Role::Guard(_)
        | Role::Coordination(_)
        | Role::Echo(_)
        | Role::Permission(_)
        | Role::AnyReceived(_) => Ok(()),
    }
}

fn push_delay_steps(
    all: &mut Vec<u32>,
    line: &Line,
    steps: &[Step<Tick>],
    c: u32,
) -> Result<(), Memory>
    ensures { OnOk result (all.new.items ≡ all.old.items ++ delay_steps line.now steps.now c) }
{
    if (c as usize) < line.channels.len() {
        push_steps(all, steps, line.delay_of(c), line.horizon)?;
    }
    Ok(())
}

fn push_steps(
    all: &mut Vec<u32>,
    steps: &[Step<Tick>],
    param: u32,
    horizon: u32,
) -> Result<(), Memory>
    ensures { OnOk result (all.new.items
        ≡ all.old.items ++ flat_map (tick_of_step param horizon) steps.now) }
{
    for step in steps {
        push_step(all, step, param, horizon)?;
    }
    Ok(())
}

fn push_step(all: &mut Vec<u32>, step: &Step<Tick>, param: u32, horizon: u32) -> Result<(), Memory>
    ensures { OnOk result (all.new.items ≡ all.old.items ++ tick_of_step param horizon step.now) }
{
    if step.param == param && step.from < horizon {
        all.push(step.from)?;
    }
    Ok(())
}

/// The row of what is received over a channel is marked exactly where a step of its delay begins
/// within the run.
pub fn marks_are_steps_of_delays()
    ensures { MarksAreSteps }
{}
