//! The times of a choice that matter.

ghost use Rattle.std.specs.Prelude.{◌≡◌, ◌<◌, ◌++◌, OnOk};
ghost use Rattle.model_history.specs.Each.{each_below};
ghost use Rattle.model_line.specs.Parameters.{param_count};
ghost use Rattle.model_timing.specs.Inside.{IsTimingInside};
ghost use Rattle.call_why.specs.Times.{choice_line, number_words, step_words, steps_words};
ghost use Rattle.call_why.specs.Times.{time_words};

use crate::lines::push_time;
use judge_settle::corner::number_of;
use model_line::{Line, Memory, name_of_parameter};
use model_timing::{Step, Timing};
use run_signal::Tick;

/// Appends the line of a choice: its times that are not in the middle of their intervals, and its steps.
#[tactic(auto, unfolding(crate::specs::Times::choice_line))]
pub fn push_choice(text: &mut Vec<u8>, line: &Line, timing: &Timing) -> Result<(), Memory>
    requires { IsTimingInside line.now timing.now }
    ensures { OnOk result (text.new.items ≡ text.old.items ++ choice_line line.now timing.now) }
{
    text.extend_from_slice(b"times in the middle of their intervals")?;
    push_numbers(text, line, timing)?;
    push_steps(text, line, timing.steps())?;
    text.extend_from_slice(b"\n")?;
    Ok(())
}

fn push_numbers(text: &mut Vec<u8>, line: &Line, timing: &Timing) -> Result<(), Memory>
    requires { IsTimingInside line.now timing.now }
    ensures { OnOk result (text.new.items ≡ text.old.items
        ++ each_below (param_count line.now) (number_words line.now timing.now)) }
{
    for i in 0..line.param_count() {
        push_number(text, line, timing, i)?;
    }
    Ok(())
}

#[tactic(auto, unfolding(crate::specs::Times::number_words))]
fn push_number(text: &mut Vec<u8>, line: &Line, timing: &Timing, i: u32) -> Result<(), Memory>
    requires inside { IsTimingInside line.now timing.now }
    requires param { i < param_count line.now }
    ensures { OnOk result (text.new.items ≡ text.old.items ++ number_words line.now timing.now i) }
{
    let number = number_of(timing, i);
    if number == line.middle(i) {
        Ok(())
    } else {
        push_named(text, line, i, number)
    }
}

// Appends the name of a time and its number.
fn push_named(text: &mut Vec<u8>, line: &Line, param: u32, value: u32) -> Result<(), Memory>
    ensures { OnOk result (text.new.items ≡ text.old.items ++ time_words line.now param value) }
{
    text.extend_from_slice(b", ")?;
    text.extend_from_slice(name_of_parameter(line, param))?;
    push_time(text, b" at ", line, value, b" ms")
}

fn push_steps(text: &mut Vec<u8>, line: &Line, steps: &[Step<Tick>]) -> Result<(), Memory>
    ensures { OnOk result (text.new.items ≡ text.old.items ++ steps_words line.now steps.now) }
{
    match steps {
        [] => Ok(()),
        [step, more @ ..] => {
            push_step(text, line, step)?;
            push_steps(text, line, more)
        }
    }
}

fn push_step(text: &mut Vec<u8>, line: &Line, step: &Step<Tick>) -> Result<(), Memory>
    ensures { OnOk result (text.new.items ≡ text.old.items ++ step_words line.now step.now) }
{
    push_named(text, line, step.param, step.value.value())?;
    push_time(text, b" from ", line, step.from, b" ms on")
}
