//! What is drawn.

use judge_map::SettledCell;
use judge_margins::map::Axes;
use model_line::{Line, Script};

/// A line, its scripts, axes, and the cells over them; and the names that each axis goes by. Without
/// a second axis the second name is not looked at.
#[derive(Clone, Copy)]
pub struct Map<'a> {
    pub line: &'a Line,
    pub scripts: &'a [Script],
    pub axes: &'a Axes,
    pub cells: &'a [SettledCell],
    pub x: &'a [u8],
    pub y: &'a [u8],
}
