//! Parts of a box, each as the declared box of a line of its own, and their halves.

ghost use Rattle.std.specs.Prelude.{◌<◌, ◌+◌, ℕ, IfOk};
ghost use Rattle.std.specs.Bool.{Decides};
ghost use Rattle.model_line.specs.Parameters.{param_count, declared_ends};
ghost use Rattle.model_line.specs.{declared.line.Line.Line, WithBounds.IsWithBounds};
ghost use Rattle.model_logic.specs.Choice.{Box, declared_box};
ghost use Rattle.model_logic.specs.Boxes.{CanSplit, lower_half, upper_half};
ghost use Rattle.judge_split.specs.Parts.{IsPart};

use crate::known::laws_below;
use model_line::{Line, Memory};
use std::alloc::Global;

/// Whether the declared box can be split there.
pub fn can_split(line: &Line, param: u32, mid: u32) -> bool
    requires { param < param_count line.now }
    ensures { Decides result (CanSplit line.now (declared_box line.now) param mid) }
{
    if line.is_delay(param) {
        return false;
    }
    if mid < line.least(param) {
        return false;
    }
    mid < line.greatest(param)
}

/// The line of the lower half of a part, whatever line and box it is a part of.
pub fn lower_part(alloc: Global, part: &Line, param: u32, mid: u32) -> Result<Line, Memory>
    requires { CanSplit part.now (declared_box part.now) param mid }
    ensures line { IfOk result (λ half. IsWithBounds part.now param
        (declared_ends part.now param).least mid half) }
    ensures part { IfOk result (λ half. (line : Line) (box : Box) → IsPart line box part.now →
        IsPart line (lower_half box param mid) half) }
{
    laws_below();
    let from = part.least(param);
    part.with_bounds(alloc, param, from, mid)
}

/// The line of the upper half of a part, whatever line and box it is a part of.
pub fn upper_part(alloc: Global, part: &Line, param: u32, mid: u32) -> Result<Line, Memory>
    requires { CanSplit part.now (declared_box part.now) param mid }
    ensures line { IfOk result (λ half. IsWithBounds part.now param
        (mid + 1) (declared_ends part.now param).greatest half) }
    ensures part { IfOk result (λ half. (line : Line) (box : Box) → IsPart line box part.now →
        IsPart line (upper_half box param mid) half) }
{
    laws_below();
    let to = part.greatest(param);
    part.with_bounds(alloc, param, mid + 1, to)
}
