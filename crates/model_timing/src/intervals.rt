//! The declared intervals, and whether a timing is inside them.

ghost use Rattle.std.specs.Prelude.{◌≡◌, ◌<◌, ◌↔◌, ℕ, length, get_or, IsTrue};
ghost use Rattle.model_logic.specs.Choice.{IsIn};
ghost use Rattle.model_line.specs.Parameters.{param_count, declared_ends};
ghost use Rattle.model_timing.specs.Inside.{IsStepInside, IsTimingInside};

use crate::step::Step;
use crate::timing::Timing;
use model_line::Line;
use model_line::laws::{declared_intervals_are_in_order, parameters_are_numbered};
use run_signal::{Tick, Within};

/// The declared interval of a parameter.
pub fn declared_interval(line: &Line, param: u32) -> Within
    requires { param < param_count line.now }
    ensures { result ≡ declared_ends line.now param }
{
    declared_intervals_are_in_order();
    let least = line.least(param);
    let greatest = line.greatest(param);
    Within::new(least, greatest)
}

/// Whether there is one number for each parameter, each lies in its interval, and each step is of
/// a delay of the line, from a tick of 1 or later and within the run, with a number of its
/// interval.
pub fn inside(line: &Line, timing: &Timing) -> bool
    ensures { IsTrue result ↔ IsTimingInside line.now timing.now }
{
    timing.values().len() == line.params.len()
        && are_values_inside(line, timing.values())
        && timing.steps().iter().all(|step| is_step_inside(line, step))
}

fn are_values_inside(line: &Line, values: &[Tick]) -> bool
    requires { length values.now ≡ param_count line.now }
    ensures { IsTrue result ↔ ((i : ℕ) → i < param_count line.now
        → IsIn (get_or values.now i 0) (declared_ends line.now i)) }
{
    parameters_are_numbered();
    for i in 0..line.params.len() {
        if !is_in(line, i as u32, values[i].value()) {
            return false;
        }
    }
    true
}

fn is_step_inside(line: &Line, step: &Step<Tick>) -> bool
    ensures { IsTrue result ↔ IsStepInside line.now step.now }
{
    line.is_delay(step.param)
        && step.from >= 1
        && step.from < line.horizon
        && is_in(line, step.param, step.value.value())
}

/// Whether a number lies in the interval of a parameter.
pub fn is_in(line: &Line, param: u32, value: u32) -> bool
    ensures { IsTrue result ↔ IsIn value (declared_ends line.now param) }
{
    match line.params.get(param as usize) {
        Some(bounds) => bounds.least <= value && value <= bounds.greatest,
        None => value == 0,
    }
}
