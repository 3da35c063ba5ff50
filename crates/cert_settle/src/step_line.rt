//! The line of a step, read.

ghost use Rattle.std.specs.Prelude.{◌≡◌, ◌≢◌, ◌<◌, ◌^◌, ℕ, MatchOption};
ghost use Rattle.std.specs.Bool.{Decides};
ghost use Rattle.model_line.specs.Parameters.{param_count};
ghost use Rattle.model_timing.specs.{declared.step.Step.Step, Inside.IsStepInside};
ghost use Rattle.model_timing.specs.Timing.{comes_before};
ghost use Rattle.cert_settle.specs.Grammar.{step_line, step_text, Follows};
ghost use Rattle.cert_settle.specs.Reading.{last_of};

use crate::branch_line::param_name_at;
use crate::known::laws_below;
use crate::number::two_numbers;
use base_text::lines::after;
use model_line::{Line, Name};
use model_timing::{Step, is_in};
use run_signal::Tick;

// Where this is the line of a step of the delay of this name: its tick and its number.
fn step_of(bytes: &[u8], name: Name) -> Option<(u32, u32)>
    ensures { MatchOption result
        ((from value : ℕ) → from < 2 ^ 32 → value < 2 ^ 32 →
        bytes.now ≢ step_line name from value)
        (λ at. (at.0 < 2 ^ 32) × ((at.1 < 2 ^ 32) × (bytes.now ≡ step_line name at.0 at.1))) }
{
    let named = after(bytes, b"step ")?;
    let at = after(named, name.bytes())?;
    let numbers = after(at, b"@")?;
    two_numbers(numbers)
}

// The step, where it is one of a delay, within the run and inside the delay's interval.
fn step_inside(line: &Line, param: u32, from: u32, value: u32) -> Option<Step<Tick>>
    requires { param < param_count line.now }
    ensures { MatchOption result
        (¬ (IsStepInside line.now (record { param = param; from = from; value = value })))
        (λ step. (step ≡ record { param = param; from = from; value = value })
        × IsStepInside line.now step) }
{
    laws_below();
    if !line.is_delay(param) {
        return None;
    }
    if from < 1 || from >= line.horizon {
        return None;
    }
    if !is_in(line, param, value) {
        return None;
    }
    let value = Tick::new(value);
    Some(Step { param, from, value })
}

// The step of this line, where it is one of this delay.
fn step_at(line: &Line, param: u32, bytes: &[u8]) -> Option<Step<Tick>>
    requires { param < param_count line.now }
    ensures { MatchOption result
        ((step : Step ℕ) → step.param ≡ param → IsStepInside line.now step →
        bytes.now ≢ step_text line.now step)
        (λ step. IsStepInside line.now step × (bytes.now ≡ step_text line.now step)) }
{
    laws_below();
    let (from, value) = step_of(bytes, param_name_at(line, param))?;
    step_inside(line, param, from, value)
}

/// The step of this line.
pub(crate) fn step_in(line: &Line, bytes: &[u8]) -> Option<Step<Tick>>
    ensures { MatchOption result
        ((step : Step ℕ) → IsStepInside line.now step → bytes.now ≢ step_text line.now step)
        (λ step. IsStepInside line.now step × (bytes.now ≡ step_text line.now step)) }
{
    laws_below();
    for p in 0..line.param_count() {
        if let Some(step) = step_at(line, p, bytes) {
            return Some(step);
        }
    }
    None
}

/// Whether a step may follow the last of these.
pub(crate) fn follows(steps: &[Step<Tick>], step: &Step<Tick>) -> bool
    ensures { Decides result (Follows (last_of steps.now) step.now) }
{
    match steps.last() {
        Some(last) => stands_before(last, step),
        None => true,
    }
}

// Whether one stands before the other, by delay and then by tick.
fn stands_before(one: &Step<Tick>, other: &Step<Tick>) -> bool
    ensures { result ≡ comes_before one.now other.now }
{
    one.param < other.param || (one.param == other.param && one.from < other.from)
}
