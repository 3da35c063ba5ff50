//! Why a map cannot be made.

ghost use Rattle.std.specs.Prelude.{◌≡◌, ◌≤◌, ◌<◌, ◌*◌, None, IsNone};
ghost use Rattle.model_line.specs.Parameters.{param_count};
ghost use Rattle.judge_margins.specs.map.Placed.{AreOfLine};
ghost use Rattle.judge_margins.specs.map.Axes.{AreAxes, CanMoveBoth, IsAxis, IsSecond, cell_count};
ghost use Rattle.judge_margins.specs.map.Faults.{axis_fault as fault_of_axis, count_fault as fault_of_count};
ghost use Rattle.judge_margins.specs.map.Faults.{first_fault as first_of, map_fault as fault_of};
ghost use Rattle.judge_margins.specs.map.Faults.{second_fault as fault_of_second};

use crate::map::axis::{Axes, Axis};
use crate::map::intervals::width;
use crate::map::known::laws_below;
use model_line::{Line, Name};

/// Why a map cannot be made.
#[derive(Clone, Copy, Drop)]
pub enum MapFault {
    /// The interval of this parameter would go beyond 4,000 ticks.
    Late(Name),
    /// This delay would begin at 0.
    NoDelay(Name),
    /// More than 40,000 cells.
    TooMany,
}

/// Why the cells of these axes cannot be told, if they cannot.
pub fn map_fault(line: &Line, axes: &Axes) -> Option<MapFault>
    requires { AreAxes line.now axes.now }
    ensures fault { result ≡ fault_of line.now axes.now }
    // Without a fault each cell can be placed, and there are few.
    ensures can { result ≡ None → CanMoveBoth line.now axes.now }
    ensures few { result ≡ None → cell_count axes.now ≤ 40000 }
{
    first_of_all(line, axes)
}

// The first axis' fault, else the second's, else too many cells.
fn first_of_all(line: &Line, axes: &Axes) -> Option<MapFault>
    requires { AreAxes line.now axes.now }
    ensures { result ≡ fault_of line.now axes.now }
{
    laws_below();
    if let Some(fault) = axis_fault(line, &axes.x) {
        return Some(fault);
    }
    if let Some(fault) = second_fault(line, &axes.y) {
        return Some(fault);
    }
    count_fault(line, axes)
}

fn second_fault(line: &Line, axis: &Option<Axis>) -> Option<MapFault>
    requires { IsSecond line.now axis.now }
    ensures { result ≡ fault_of_second line.now axis.now }
{
    match axis {
        Some(axis) => axis_fault(line, axis),
        None => None,
    }
}

fn count_fault(line: &Line, axes: &Axes) -> Option<MapFault>
    requires { AreAxes line.now axes.now }
    ensures { result ≡ fault_of_count axes.now }
{
    if 40000 < axes.cells(line) {
        Some(MapFault::TooMany)
    } else {
        None
    }
}

fn axis_fault(line: &Line, axis: &Axis) -> Option<MapFault>
    requires { IsAxis line.now axis.now }
    ensures { result ≡ fault_of_axis line.now axis.now }
{
    let last = axis.least(axis.count() - 1);
    first_fault(line, axis.first, last, axis.params.as_slice())
}

// The first of these whose interval cannot begin at each number from the first to the last.
fn first_fault(line: &Line, first: u32, last: u32, params: &[u32]) -> Option<MapFault>
    requires params { AreOfLine line.now params.now }
    requires last { last ≤ 4000 }
    ensures { result ≡ first_of line.now first last params.now }
{
    match params {
        [] => None,
        [param, rest @ ..] => {
            let param = *param;
            if 4000 < last + width(line, param) {
                return Some(MapFault::Late(line.params[param as usize].name));
            }
            if line.is_delay(param) && first == 0 {
                return Some(MapFault::NoDelay(line.params[param as usize].name));
            }
            first_fault(line, first, last, rest)
        }
    }
}
