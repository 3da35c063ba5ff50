//! The cell that is asked about.

use judge_margins::map::Axes;
use model_line::{Line, Script};

/// A line, its scripts, axes, and a cell by its place, column by column.
#[derive(Clone, Copy)]
pub(crate) struct Asked<'a> {
    pub line: &'a Line,
    pub scripts: &'a [Script],
    pub axes: &'a Axes,
    pub place: u32,
}
