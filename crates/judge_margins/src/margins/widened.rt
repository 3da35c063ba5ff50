//! One end of one interval moved outward.

ghost use Rattle.std.specs.Prelude.{◌≡◌, ◌≤◌, ◌<◌};
ghost use Rattle.model_line.specs.Parameters.{param_count, declared_ends};
ghost use Rattle.judge_margins.specs.margins.Widened.{moved, room as room_of};
ghost use Rattle.judge_margins.specs.margins.Widened.{first_number as first_of};
ghost use Rattle.judge_margins.specs.margins.Widened.{param_at as param_of, side_at as side_of};

use crate::margins::end::Side;
use crate::margins::known::laws_below;
use model_line::Line;

/// The parameter of an end by its place: both ends of each, in order.
pub fn param_at(place: usize) -> u32
    requires { place ≤ 126 }
    ensures { result ≡ param_of place }
{
    (place / 2) as u32
}

/// The side of an end by its place: above, then below.
pub fn side_at(place: usize) -> Side
    ensures { result ≡ side_of place }
{
    if place % 2 == 0 {
        Side::Above
    } else {
        Side::Below
    }
}

/// How far an end can be moved outward: up to 4,000, down to the least number that a parameter may
/// have.
pub fn room(line: &Line, param: u32, side: Side) -> u32
    requires { param < param_count line.now }
    ensures room { result ≡ room_of line.now param side }
    ensures small { result ≤ 4000 }
{
    laws_below();
    match side {
        Side::Above => 4000 - line.greatest(param),
        Side::Below => line.least(param) - first_number(line, param),
    }
}

// The least number that a parameter may have.
fn first_number(line: &Line, param: u32) -> u32
    ensures number { result ≡ first_of line.now param }
    ensures declared { param < param_count line.now → result ≤ (declared_ends line.now param).least }
{
    laws_below();
    if line.is_delay(param) { 1 } else { 0 }
}

/// The interval with this end moved.
pub fn moved_ends(line: &Line, param: u32, side: Side, by: u32) -> (u32, u32)
    requires exists { param < param_count line.now }
    requires room { by ≤ room_of line.now param side }
    ensures least { result.0 ≡ (moved (declared_ends line.now param) side by).least }
    ensures greatest { result.1 ≡ (moved (declared_ends line.now param) side by).greatest }
    ensures ordered { result.0 ≤ result.1 }
    ensures limit { result.1 ≤ 4000 }
{
    laws_below();
    let first = first_number(line, param);
    let (least, greatest) = (line.least(param), line.greatest(param));
    match side {
        Side::Above => (least, greatest + by),
        Side::Below => (least - by, greatest),
    }
}
