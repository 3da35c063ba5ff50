//! The intervals of a block of cells, side by side.

ghost use Rattle.std.specs.Prelude.{◌≡◌, ◌≤◌, ◌<◌, ◌-◌, IfOk, IsTrue, min};
ghost use Rattle.model_line.specs.Parameters.{param_count, declared_ends};
ghost use Rattle.judge_margins.specs.map.Placed.{width_of};
ghost use Rattle.judge_margins.specs.map.Axes.{AreAxes, CanMoveBoth, CanMove, IsAxis, cell_count, cell_ends};
ghost use Rattle.judge_margins.specs.map.Axes.{column_count, row_count, count_along, ends_along, moved};
ghost use Rattle.judge_margins.specs.map.Axes.{least_at, moves, place_box};
ghost use Rattle.judge_margins.specs.map.Blocks.{AreCellSpans, IsCellSpan, cell_in as cell_of_lane};

use crate::map::axis::{Axes, Axis};
use crate::map::intervals::width;
use crate::map::known::laws_below;
use judge_verdict::boxes::Spans64;
use model_line::{Line, Memory};
use run_signal::{Tick, Ticks64};
use std::alloc::Global;

/// A span for each parameter: in each lane its interval in the lane's cell.
pub fn cell_spans(
    alloc: Global,
    line: &Line,
    axes: &Axes,
    first: u32,
) -> Result<Vec<Spans64>, Memory>
    requires axes { AreAxes line.now axes.now }
    requires can { CanMoveBoth line.now axes.now }
    requires first { first < cell_count axes.now }
    ensures { IfOk result (λ spans. AreCellSpans line.now axes.now first spans.items) }
{
    let mut spans = Vec::new(alloc);
    for param in 0..line.param_count() {
        spans.push(cell_span(line, axes, first, param))?;
    }
    Ok(spans)
}

// The interval of a parameter in each cell of a block.
fn cell_span(line: &Line, axes: &Axes, first: u32, param: u32) -> Spans64
    requires axes { AreAxes line.now axes.now }
    requires can { CanMoveBoth line.now axes.now }
    requires first { first < cell_count axes.now }
    requires param { param < param_count line.now }
    ensures { IsCellSpan line.now axes.now first param result }
{
    laws_below();
    let mut least = [Tick::new(0); 64];
    let mut greatest = [Tick::new(0); 64];
    for lane in 0..64 {
        let (low, high) = ends_in_lane(line, axes, first + lane, param);
        least[lane as usize] = Tick::new(low);
        greatest[lane as usize] = Tick::new(high);
    }
    Spans64::new(Ticks64::new(least), Ticks64::new(greatest))
}

// The interval of a parameter in the cell of this number, or in the last one.
fn ends_in_lane(line: &Line, axes: &Axes, place: u32, param: u32) -> (u32, u32)
    requires axes { AreAxes line.now axes.now }
    requires can { CanMoveBoth line.now axes.now }
    requires some { 1 ≤ cell_count axes.now }
    requires param { param < param_count line.now }
    ensures least { result.0 ≡ ((place_box line.now axes.now
        (min place (cell_count axes.now - 1))).ends param).least }
    ensures greatest { result.1 ≡ ((place_box line.now axes.now
        (min place (cell_count axes.now - 1))).ends param).greatest }
    ensures ordered { result.0 ≤ result.1 }
    ensures limit { result.1 ≤ 4000 }
{
    let rows = axes.rows(line);
    let cell = place.min(axes.cells(line) - 1);
    ends_in_cell(line, axes, cell / rows, cell % rows, param)
}

// The interval of a parameter in a cell.
fn ends_in_cell(line: &Line, axes: &Axes, column: u32, row: u32, param: u32) -> (u32, u32)
    requires axes { AreAxes line.now axes.now }
    requires can { CanMoveBoth line.now axes.now }
    requires column { column < column_count axes.now }
    requires row { row < row_count axes.now }
    requires param { param < param_count line.now }
    ensures least { result.0 ≡ (cell_ends line.now axes.now column row param).least }
    ensures greatest { result.1 ≡ (cell_ends line.now axes.now column row param).greatest }
    ensures ordered { result.0 ≤ result.1 }
    ensures limit { result.1 ≤ 4000 }
{
    if let Some(y) = &axes.y {
        if y.moves(param) {
            return moved_ends(line, y, row, param);
        }
    }
    if axes.x.moves(param) {
        return moved_ends(line, &axes.x, column, param);
    }
    laws_below();
    (line.least(param), line.greatest(param))
}

// The interval of a parameter that moves along an axis, at a number of it.
fn moved_ends(line: &Line, axis: &Axis, place: u32, param: u32) -> (u32, u32)
    requires axis { IsAxis line.now axis.now }
    requires can { CanMove line.now axis.now }
    requires place { place < count_along axis.now }
    requires moves { IsTrue (moves axis.now param) }
    requires param { param < param_count line.now }
    ensures least { result.0 ≡ (moved line.now param (least_at axis.now place)).least }
    ensures greatest { result.1 ≡ (moved line.now param (least_at axis.now place)).greatest }
    ensures ordered { result.0 ≤ result.1 }
    ensures limit { result.1 ≤ 4000 }
{
    let least = axis.least(place);
    (least, least + width(line, param))
}
