//! The axes of a map.

ghost use Rattle.std.specs.Prelude.{◌≡◌, ◌≤◌, ◌<◌, ◌*◌};
ghost use Rattle.model_line.specs.{Parameters.param_count, Parameters.declared_ends};
ghost use Rattle.judge_margins.specs.map.Placed.{width_of};
ghost use Rattle.judge_margins.specs.map.Axes.{AreAxes, CanMove, CanMoveBoth, IsAxis, cell_ends, moved};
ghost use Rattle.judge_margins.specs.map.Axes.{moves as moves_along, count_along, least_at as least_of};
ghost use Rattle.judge_margins.specs.map.Axes.{ends_along, row_count, column_count, cell_count};
ghost use Rattle.judge_margins.specs.declared.map.axis.Axis.{Axis as AxisOf};

use crate::map::intervals::width;
use crate::map::known::laws_below;
use model_line::Line;

/// Parameters, by their numbers, whose intervals move together: the least end of each goes from the
/// first number of ticks to the last, step by step, and each keeps its width.
#[derive(Drop)]
pub struct Axis {
    pub params: Vec<u32>,
    pub first: u32,
    pub last: u32,
    pub step: u32,
}

/// The columns of a map, and its rows; without a second axis there is one row.
#[derive(Drop)]
pub struct Axes {
    pub x: Axis,
    pub y: Option<Axis>,
}

impl Axis {
    /// How many numbers of ticks it has.
    pub fn count(&self) -> u32
        requires step { 1 ≤ self.now.step }
        requires limit { self.now.last ≤ 4000 }
        ensures count { result ≡ count_along self.now }
        ensures few { result ≤ 4001 }
    {
        self.last.saturating_sub(self.first) / self.step + 1
    }

    /// The number of this place, counted from 0.
    pub fn least(&self, place: u32) -> u32
        requires step { 1 ≤ self.now.step }
        requires ordered { self.now.first ≤ self.now.last }
        requires limit { self.now.last ≤ 4000 }
        requires place { place < count_along self.now }
        ensures least { result ≡ least_of self.now place }
        ensures within { result ≤ self.now.last }
    {
        self.first + place * self.step
    }

    /// Whether the parameter moves along it.
    pub fn moves(&self, param: u32) -> bool
        ensures { result ≡ moves_along self.now param }
    {
        self.params.iter().any(|p| *p == param)
    }
}

impl Axes {
    /// How many columns there are.
    pub fn columns(&self, line: &Line) -> u32
        requires { AreAxes line.now self.now }
        ensures count { result ≡ column_count self.now }
        ensures few { result ≤ 4001 }
    {
        let _line = line;
        self.x.count()
    }

    /// How many rows there are.
    pub fn rows(&self, line: &Line) -> u32
        requires { AreAxes line.now self.now }
        ensures count { result ≡ row_count self.now }
        ensures few { result ≤ 4001 }
        ensures some { 1 ≤ result }
    {
        let _line = line;
        match &self.y {
            Some(y) => y.count(),
            None => 1,
        }
    }
    /// How many cells there are.
    pub fn cells(&self, line: &Line) -> u32
        requires { AreAxes line.now self.now }
        ensures count { result ≡ cell_count self.now }
    {
        self.columns(line) * self.rows(line)
    }
}
