//! Where cells and times lie.

ghost use Rattle.std.specs.Prelude.{◌≡◌, ◌≤◌, ◌<◌, ◌+◌, ◌^◌};
ghost use Rattle.draw_shapes.specs.Scale.{IsGrid, IsRuler, IsScale, along as along_of, last_of};
ghost use Rattle.draw_shapes.specs.Scale.{bottom_of, row_count, scale_of as scale_for, x_of, y_of};

use crate::grid::{Grid, Ruler};

/// How many columns and rows there are, and how long and high a cell is.
#[derive(Clone, Copy)]
pub struct Scale {
    pub columns: u32,
    pub rows: u32,
    pub width: u32,
    pub height: u32,
}

/// The left end of the cells.
pub const LEFT: u32 = 1200;

/// The upper end of the cells.
pub const TOP: u32 = 1100;

/// The scale of a grid.
pub fn scale_of(grid: &Grid) -> Scale
    requires { IsGrid grid.now }
    ensures is { result ≡ scale_for grid.now }
    ensures fits { IsScale result }
{
    let columns = grid.x.count;
    let rows = rows_of(grid);
    Scale {
        columns,
        rows,
        width: (5800 / columns).min(400).max(1),
        height: (4200 / rows).min(300).max(1),
    }
}

fn rows_of(grid: &Grid) -> u32
    requires { IsGrid grid.now }
    ensures is { result ≡ row_count grid.now.y }
    ensures some { 1 ≤ result }
    ensures few { result ≤ 4001 }
{
    match &grid.y {
        Some(y) => y.count,
        None => 1,
    }
}

impl Scale {
    /// The left end of a column.
    pub fn x(self, column: u32) -> u32
        requires fits { IsScale self }
        requires column { column ≤ 4001 }
        ensures is { result ≡ x_of self column }
        ensures limit { result ≤ 2000000 }
        ensures past { 1200 ≤ result }
    {
        LEFT + column * self.width
    }

    /// The lower end of all rows.
    pub fn bottom(self) -> u32
        requires { IsScale self }
        ensures is { result ≡ bottom_of self }
        ensures limit { result ≤ 2000000 }
        ensures past { 1100 ≤ result }
    {
        TOP + self.rows * self.height
    }

    /// The upper end of a row.
    pub fn y(self, row: u32) -> u32
        requires fits { IsScale self }
        requires row { row < self.rows }
        ensures is { result ≡ y_of self row }
        ensures limit { result ≤ 2000000 }
        ensures past { 1100 ≤ result }
    {
        self.bottom() - (row + 1) * self.height
    }
}

/// How far from the first end a time of a ruler lies whose cells are so long.
pub fn along(ruler: &Ruler, long: u32, time: u64) -> u32
    requires ruler { IsRuler ruler.now }
    requires long { long ≤ 400 }
    requires time { time ≤ last_of ruler.now }
    ensures is { result ≡ along_of ruler.now long time }
    ensures limit { result ≤ 2000000 }
{
    let past = time.saturating_sub(ruler.first) * long as u64 / ruler.step;
    past as u32 + long / 2
}

/// The last time of a ruler.
pub fn last(ruler: &Ruler) -> u64
    requires { IsRuler ruler.now }
    ensures is { result ≡ last_of ruler.now }
    ensures small { result ≤ 10 ^ 11 }
{
    ruler.first + (ruler.count - 1) as u64 * ruler.step
}
