//! A line with several intervals moved together.

ghost use Rattle.std.specs.Prelude.{◌≡◌, ◌≤◌, ◌<◌, ◌+◌, ℕ, Some, Decides, IfOk, MatchOption, length};
ghost use Rattle.std.specs.Prelude.{slice_get};
ghost use Rattle.model_line.specs.{Parameters.param_count, SetBounds.SameButParams};
ghost use Rattle.model_line.specs.{WithBounds.IsWithBounds};
ghost use Rattle.judge_margins.specs.map.Placed.{CanPlace, CanPlaceAll, AreOfLine, IsPlaced, width_of};

use crate::map::known::laws_below;
use crate::map::laws::what_is_placed_is_a_part;
use model_line::{Line, Memory};
use std::alloc::Global;

/// The line with the interval of each of these parameters moved, with its width, so that it begins
/// at this number of ticks; none where one of them would go past 4,000, or a delay begin at 0.
pub fn placed(
    alloc: Global,
    line: &Line,
    params: &[u32],
    least: u32,
) -> Result<Option<Line>, Memory>
    requires exist { AreOfLine line.now params.now }
    requires small { least ≤ 4000 }
    ensures { IfOk result (λ placed. MatchOption placed
        (¬ (CanPlaceAll line.now params.now least))
        (λ other. IsPlaced line.now params.now least (length params.now) other)) }
{
    what_is_placed_is_a_part();
    if !can_place_all(line, params, least) {
        return Ok(None);
    }
    let mut other = line.copy(alloc)?;
    for i in 0..params.len() {
        other = placed_more(alloc, line, params, least, i, &other)?;
    }
    Ok(Some(other))
}

// Whether all can begin there.
fn can_place_all(line: &Line, params: &[u32], least: u32) -> bool
    requires exist { AreOfLine line.now params.now }
    requires small { least ≤ 4000 }
    ensures { Decides result (CanPlaceAll line.now params.now least) }
{
    for i in 0..params.len() {
        if !can_place_at(line, params, least, i) {
            return false;
        }
    }
    true
}

fn can_place_at(line: &Line, params: &[u32], least: u32, i: usize) -> bool
    requires exist { AreOfLine line.now params.now }
    requires small { least ≤ 4000 }
    requires place { i < length params.now }
    ensures { (param : ℕ) → slice_get params.now i ≡ Some param →
        Decides result (CanPlace line.now least param) }
{
    laws_below();
    can_place(line, least, params[i])
}

fn can_place(line: &Line, least: u32, param: u32) -> bool
    requires exists { param < param_count line.now }
    requires small { least ≤ 4000 }
    ensures { Decides result (CanPlace line.now least param) }
{
    if line.is_delay(param) && least == 0 {
        return false;
    }
    least + width(line, param) <= 4000
}

/// How wide the declared interval is.
pub fn width(line: &Line, param: u32) -> u32
    requires { param < param_count line.now }
    ensures width { result ≡ width_of line.now param }
    ensures small { result ≤ 4000 }
{
    laws_below();
    line.greatest(param) - line.least(param)
}

// With one interval more.
fn placed_more(
    alloc: Global,
    line: &Line,
    params: &[u32],
    least: u32,
    i: usize,
    other: &Line,
) -> Result<Line, Memory>
    requires exist { AreOfLine line.now params.now }
    requires small { least ≤ 4000 }
    requires can { CanPlaceAll line.now params.now least }
    requires place { i < length params.now }
    requires rest { SameButParams line.now other.now }
    ensures { IfOk result (λ more. (param : ℕ) → slice_get params.now i ≡ Some param →
        IsWithBounds other.now param least (least + width_of line.now param) more) }
{
    laws_below();
    let param = params[i];
    let greatest = least + width(line, param);
    other.with_bounds(alloc, param, least, greatest)
}
