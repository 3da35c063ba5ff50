//! One end of one interval moved inward.

ghost use Rattle.std.specs.Prelude.{◌≡◌, ◌≤◌, ◌<◌, ◌↔◌, ℕ, Decides};
ghost use Rattle.model_line.specs.Parameters.{declared_ends, param_count};
ghost use Rattle.judge_slacks.specs.Inward.{CanMoveIn, IsTakenAlong, depth as depth_of, moved_in};

use crate::known::laws_below;
use judge_margins::margins::Side;
use judge_settle::corner::is_one_railed;
use model_line::Line;

/// How far an end can be moved inward.
pub fn room_in(line: &Line, param: u32, side: Side) -> u32
    requires { param < param_count line.now }
    ensures room { (n : ℕ) → CanMoveIn line.now param side n ↔ n ≤ result }
    ensures small { result ≤ 4000 }
{
    laws_below();
    let depth = depth(line, param, side);
    if is_taken_along(line, param) {
        depth
    } else {
        depth.min(line.greatest(param) - line.least(param))
    }
}

// Whether the other end is taken along.
fn is_taken_along(line: &Line, param: u32) -> bool
    ensures { Decides result (IsTakenAlong line.now param) }
{
    is_one_railed(line) && !line.is_delay(param)
}

// Down to the first number, up to 4,000.
fn depth(line: &Line, param: u32, side: Side) -> u32
    requires { param < param_count line.now }
    ensures depth { result ≡ depth_of line.now param side }
    ensures small { result ≤ 4000 }
{
    laws_below();
    match side {
        Side::Above => {
            let first = if line.is_delay(param) { 1 } else { 0 };
            line.greatest(param) - first
        }
        Side::Below => 4000 - line.least(param),
    }
}

/// The interval with this end moved.
pub fn ends_moved(line: &Line, param: u32, side: Side, by: u32) -> (u32, u32)
    requires exists { param < param_count line.now }
    requires room { CanMoveIn line.now param side by }
    ensures least { result.0 ≡ (moved_in (declared_ends line.now param) side by).least }
    ensures greatest { result.1 ≡ (moved_in (declared_ends line.now param) side by).greatest }
    ensures ordered { result.0 ≤ result.1 }
    ensures limit { result.1 ≤ 4000 }
{
    laws_below();
    let (least, greatest) = (line.least(param), line.greatest(param));
    match side {
        Side::Above => {
            let end = greatest - by;
            (least.min(end), end)
        }
        Side::Below => {
            let end = least + by;
            (end, greatest.max(end))
        }
    }
}
