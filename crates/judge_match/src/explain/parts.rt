//! Parts of the declared intervals.

ghost use Rattle.std.specs.Prelude.{◌≡◌, ◌≤◌, ◌<◌, ◌+◌, IfOk, Decides, length, slice_set};
ghost use Rattle.model_history.specs.Rails.{Ends};
ghost use Rattle.model_line.specs.Parameters.{param_count, declared_ends};
ghost use Rattle.run_signal.specs.Spans.{AreInOrder};
ghost use Rattle.model_logic.specs.Boxes.{interval_of};
ghost use Rattle.judge_match.specs.explain.Parts.{declared_part as part_declared, CanPart};
ghost use Rattle.judge_match.specs.explain.Parts.{lower_part as part_below, upper_part as part_above};
ghost use Rattle.judge_match.specs.explain.Asked.{IsPart};

use model_line::laws::delays_are_parameters;
use model_line::{Line, Memory};
use model_logic::laws::each_line_has_a_choice_inside;
use model_timing::declared_interval;
use run_signal::Within;
use std::alloc::Global;

/// The declared intervals.
pub fn declared_part(alloc: Global, line: &Line) -> Result<Vec<Within>, Memory>
    ensures is { IfOk result (λ part. part.items ≡ part_declared line.now) }
    ensures part { IfOk result (λ part. IsPart line.now part.items) }
{
    each_line_has_a_choice_inside();
    delays_are_parameters();
    let mut part = Vec::new(alloc);
    for param in 0..line.param_count() {
        let own = declared_interval(line, param);
        part.push(own)?;
    }
    Ok(part)
}

/// Whether neither side is empty where a part is parted there.
pub fn can_part(line: &Line, part: &[Within], param: u32, mid: u32) -> bool
    requires { IsPart line.now part.now }
    ensures { Decides result (CanPart line.now part.now param mid) }
{
    if param >= line.param_count() {
        return false;
    }
    let ends = interval(part, param);
    ends.least() <= mid && mid < ends.greatest()
}

/// The interval of a parameter; 0 past the last.
pub fn interval(part: &[Within], param: u32) -> Within
    ensures ends { result ≡ interval_of part.now param }
    ensures in_order { AreInOrder result }
{
    match part.get(param as usize) {
        Some(ends) => {
            let _least = ends.least();
            *ends
        }
        None => Within::new(0, 0),
    }
}

/// The part with the numbers of a parameter up to `mid`.
pub fn lower_part(
    alloc: Global,
    line: &Line,
    part: &[Within],
    param: u32,
    mid: u32,
) -> Result<Vec<Within>, Memory>
    requires part { IsPart line.now part.now }
    requires can { CanPart line.now part.now param mid }
    ensures is { IfOk result (λ side. side.items ≡ part_below part.now param mid) }
    ensures part { IfOk result (λ side. IsPart line.now side.items) }
{
    delays_are_parameters();
    let ends = interval(part, param);
    let least = ends.least();
    let _greatest = ends.greatest();
    let new = Within::new(least, mid);
    with_interval(alloc, part, param, new)
}

/// The part with the numbers of a parameter above `mid`.
pub fn upper_part(
    alloc: Global,
    line: &Line,
    part: &[Within],
    param: u32,
    mid: u32,
) -> Result<Vec<Within>, Memory>
    requires part { IsPart line.now part.now }
    requires can { CanPart line.now part.now param mid }
    ensures is { IfOk result (λ side. side.items ≡ part_above part.now param mid) }
    ensures part { IfOk result (λ side. IsPart line.now side.items) }
{
    delays_are_parameters();
    let ends = interval(part, param);
    let greatest = ends.greatest();
    let new = Within::new(mid + 1, greatest);
    with_interval(alloc, part, param, new)
}

// The part with another interval for a parameter.
fn with_interval(
    alloc: Global,
    part: &[Within],
    param: u32,
    new: Within,
) -> Result<Vec<Within>, Memory>
    requires { param < length part.now }
    ensures { IfOk result (λ other. other.items ≡ slice_set part.now param new) }
{
    let mut other = Vec::from_slice(alloc, part)?;
    other[param as usize] = new;
    Ok(other)
}
