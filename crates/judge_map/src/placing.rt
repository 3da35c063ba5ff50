//! The line with the intervals of a cell.

ghost use Rattle.std.specs.Prelude.{◌≡◌, ◌≤◌, ◌<◌, IfOk, IfSome, length};
ghost use Rattle.model_line.specs.{SetBounds.SameButParams};
ghost use Rattle.judge_margins.specs.map.Axes.{IsSecond, least_at, rows_of};
ghost use Rattle.judge_margins.specs.map.MapLaws.{IsPlacedUp};
ghost use Rattle.judge_map.specs.Asked.{HasItsBox, IsAsked};

use crate::asked::Asked;
use crate::laws::laws_below;
use judge_margins::map::{Axis, placed, what_is_placed_is_a_part};
use model_line::{Line, Memory};
use std::alloc::Global;

/// The line with the intervals of the cell; none where there is none.
pub(crate) fn line_of_cell(alloc: Global, asked: &Asked<'_>) -> Result<Option<Line>, Memory>
    requires { IsAsked asked.now }
    ensures { IfOk result (λ other. IfSome other (HasItsBox asked.now)) }
{
    laws_below();
    what_is_placed_is_a_part();
    let axes = asked.axes;
    let rows = axes.rows(asked.line);
    let least = axes.x.least(asked.place / rows);
    let params = axes.x.params.as_slice();
    let Some(between) = placed(alloc, asked.line, params, least)? else {
        return Ok(None);
    };
    placed_up(alloc, asked.line, between, &axes.y, asked.place % rows)
}

// That line with the intervals moved along a second axis too, if there is one.
fn placed_up(
    alloc: Global,
    line: &Line,
    between: Line,
    axis: &Option<Axis>,
    row: u32,
) -> Result<Option<Line>, Memory>
    requires rest { SameButParams line.now between }
    requires axis { IsSecond line.now axis.now }
    requires row { row < rows_of axis.now }
    ensures { IfOk result (λ other. IfSome other (λ other.
        IsPlacedUp line.now axis.now row between other × SameButParams line.now other)) }
{
    laws_below();
    what_is_placed_is_a_part();
    let _line = line;
    match axis {
        Some(axis) => placed(alloc, &between, axis.params.as_slice(), axis.least(row)),
        None => Ok(Some(between)),
    }
}
