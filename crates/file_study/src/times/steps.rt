//! The numbers of an axis.

ghost use Rattle.std.specs.Prelude.{◌≡◌, ◌≤◌, IfOk};
ghost use Rattle.file_study.specs.times.Steps.{AreSteps, in_order as in_order_of, parted as parted_of};
ghost use Rattle.file_study.specs.times.Steps.{steps_of, three_of};

use crate::times::axis_fault::{AxisFault, Part};
use crate::times::axis_number::{have_units, ticks};
use crate::times::names::unknown;
use crate::times::parts::{behind, dots, first, last, names_of, numbers, step};
use base_text::lines::find_byte;
use model_line::Line;

/// Numbers of ticks from the first to the last, step by step.
#[derive(Clone, Copy)]
pub struct Steps {
    pub first: u32,
    pub last: u32,
    pub step: u32,
}

/// The numbers that the words of an axis say: `FROM..TO:STEP` behind names that each stand for some
/// parameter, all three in ticks, or each with a unit as a study writes it.
pub fn read_steps(line: &Line, words: &[u8]) -> Result<Steps, AxisFault>
    ensures is { result ≡ steps_of line.now words.now }
    ensures are { IfOk result AreSteps }
{
    if find_byte(words, b'=') == words.len() {
        return Err(AxisFault::NoEquals);
    }
    match unknown(line, names_of(words)) {
        Some(k) => Err(AxisFault::Unknown(k + 1)),
        None => parted(line.tick_us, numbers(words)),
    }
}

// The three numbers, if there are three.
fn parted(tick_us: u32, numbers: &[u8]) -> Result<Steps, AxisFault>
    requires tick { 1 ≤ tick_us }
    ensures is { result ≡ parted_of tick_us numbers.now }
    ensures are { IfOk result AreSteps }
{
    if dots(numbers) == numbers.len() {
        return Err(AxisFault::NoLast);
    }
    let rest = behind(numbers);
    if find_byte(rest, b':') == rest.len() {
        return Err(AxisFault::NoStep);
    }
    three(tick_us, have_units(numbers), numbers)
}

fn three(tick_us: u32, units: bool, numbers: &[u8]) -> Result<Steps, AxisFault>
    requires tick { 1 ≤ tick_us }
    ensures is { result ≡ three_of tick_us units numbers.now }
    ensures are { IfOk result AreSteps }
{
    let from = ticks(Part::First, tick_us, units, first(numbers))?;
    let to = ticks(Part::Last, tick_us, units, last(numbers))?;
    let by = ticks(Part::Step, tick_us, units, step(numbers))?;
    in_order(from, to, by)
}

fn in_order(first: u32, last: u32, step: u32) -> Result<Steps, AxisFault>
    requires last { last ≤ 4000 }
    requires step { step ≤ 4000 }
    ensures is { result ≡ in_order_of first last step }
    ensures are { IfOk result AreSteps }
{
    if last < first {
        return Err(AxisFault::Order);
    }
    if step == 0 {
        return Err(AxisFault::StepOfZero);
    }
    Ok(Steps { first, last, step })
}
