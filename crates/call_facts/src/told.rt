//! What is told of a choice of delays.

ghost use Rattle.std.specs.Prelude.{◌≡◌, ◌<◌, ◌++◌, ℕ, List, IfOk, OnOk, map};
ghost use Rattle.model_line.specs.Parameters.{param_count};
ghost use Rattle.model_line.specs.NamesByNumber.{parameter_name};
ghost use Rattle.model_timing.specs.Inside.{IsTimingInside};
ghost use Rattle.call_facts.specs.Told.{IsToldTime, IsToldStep, is_told as is_told_of};
ghost use Rattle.call_facts.specs.Told.{is_at_least as is_at_least_of};
ghost use Rattle.call_facts.specs.Lists.{EachOf, if_one, those_below};

use draw_page::{ToldStep, ToldTime};
use judge_settle::corner::number_of;
use model_line::{Line, Memory, name_of_parameter};
use model_timing::{Step, Timing};
use run_signal::Tick;
use std::alloc::Global;

/// The times that stand neither in the middle of their intervals nor at their least.
pub fn told_times(alloc: Global, line: &Line, timing: &Timing) -> Result<Vec<ToldTime>, Memory>
    requires { IsTimingInside line.now timing.now }
    ensures { IfOk result (λ told. EachOf (IsToldTime line.now timing.now)
        (those_below (is_told_of line.now timing.now) (param_count line.now)) told.items) }
{
    let mut told = Vec::new(alloc);
    for i in 0..line.param_count() {
        push_told(alloc, line, timing, i, &mut told)?;
    }
    Ok(told)
}

// Adds a time, if it stands so.
fn push_told(
    alloc: Global,
    line: &Line,
    timing: &Timing,
    i: u32,
    told: &mut Vec<ToldTime>,
) -> Result<(), Memory>
    requires inside { IsTimingInside line.now timing.now }
    requires param { i < param_count line.now }
    ensures { OnOk result ((before : List ℕ) →
        EachOf (IsToldTime line.now timing.now) before told.old.items →
        EachOf (IsToldTime line.now timing.now)
        (before ++ if_one (is_told_of line.now timing.now i) i) told.new.items) }
{
    if is_told(line, timing, i) {
        let one = told_time(alloc, line, timing, i)?;
        told.push(one)?;
    }
    Ok(())
}

fn told_time(alloc: Global, line: &Line, timing: &Timing, i: u32) -> Result<ToldTime, Memory>
    requires inside { IsTimingInside line.now timing.now }
    requires param { i < param_count line.now }
    ensures { IfOk result (IsToldTime line.now timing.now i) }
{
    let name = Vec::from_slice(alloc, name_of_parameter(line, i))?;
    Ok(ToldTime {
        name,
        number: number_of(timing, i),
        low: line.least(i),
        high: line.greatest(i),
    })
}

fn is_told(line: &Line, timing: &Timing, i: u32) -> bool
    requires inside { IsTimingInside line.now timing.now }
    requires param { i < param_count line.now }
    ensures { result ≡ is_told_of line.now timing.now i }
{
    let number = number_of(timing, i);
    number != line.middle(i) && number != line.least(i)
}

fn is_at_least(line: &Line, timing: &Timing, i: u32) -> bool
    requires inside { IsTimingInside line.now timing.now }
    requires param { i < param_count line.now }
    ensures { result ≡ is_at_least_of line.now timing.now i }
{
    let number = number_of(timing, i);
    number != line.middle(i) && number == line.least(i)
}

/// The names of the times that stand at their least, where that is not the middle.
pub fn least_times(alloc: Global, line: &Line, timing: &Timing) -> Result<Vec<Vec<u8>>, Memory>
    requires { IsTimingInside line.now timing.now }
    ensures { IfOk result (λ names. map (λ name. name.items) names.items
        ≡ map (parameter_name line.now)
        (those_below (is_at_least_of line.now timing.now) (param_count line.now))) }
{
    let mut names = Vec::new(alloc);
    for i in 0..line.param_count() {
        push_least(alloc, line, timing, i, &mut names)?;
    }
    Ok(names)
}

fn push_least(
    alloc: Global,
    line: &Line,
    timing: &Timing,
    i: u32,
    names: &mut Vec<Vec<u8>>,
) -> Result<(), Memory>
    requires inside { IsTimingInside line.now timing.now }
    requires param { i < param_count line.now }
    ensures { OnOk result (map (λ name. name.items) names.new.items
        ≡ map (λ name. name.items) names.old.items
        ++ map (parameter_name line.now) (if_one (is_at_least_of line.now timing.now i) i)) }
{
    if is_at_least(line, timing, i) {
        let name = Vec::from_slice(alloc, name_of_parameter(line, i))?;
        names.push(name)?;
    }
    Ok(())
}

/// The steps of moving delays.
pub fn told_steps(alloc: Global, line: &Line, steps: &[Step<Tick>]) -> Result<Vec<ToldStep>, Memory>
    ensures { IfOk result (λ told. EachOf (IsToldStep line.now) steps.now told.items) }
{
    let mut told = Vec::new(alloc);
    for step in steps {
        let one = told_step(alloc, line, step)?;
        told.push(one)?;
    }
    Ok(told)
}

fn told_step(alloc: Global, line: &Line, step: &Step<Tick>) -> Result<ToldStep, Memory>
    ensures { IfOk result (IsToldStep line.now step.now) }
{
    let name = Vec::from_slice(alloc, name_of_parameter(line, step.param))?;
    Ok(ToldStep {
        name,
        from: step.from,
        number: step.value.value(),
    })
}
