//! The parts into which a box is split.

ghost use Rattle.std.specs.Prelude.{◌≡◌, ◌<◌, ◌≤◌, ℕ, IfOk, Some, slice_get};
ghost use Rattle.model_line.specs.{declared.line.Line.Line, SetBounds.SameButParams};
ghost use Rattle.judge_verdict.specs.boxes.Held.{AreParts};
ghost use Rattle.judge_split.specs.Search.{IsLower, IsUpper};
ghost use Rattle.judge_split.specs.{Widths.IsWidest, Quiet.HasHalves, Quiet.HalvesIfAny};

use crate::halves::halves;
use crate::widest::widest;
use model_line::{Line, Memory};
use std::alloc::Global;

/// The halves of a box at its widest parameter, their halves, and so on, level by level: those of
/// part i are parts 2 i + 2 and 2 i + 3. Where a part has none they are that part again.
pub fn parts_of(alloc: Global, line: &Line, param: u32, depth: u32) -> Result<Vec<Line>, Memory>
    requires { IsWidest line.now param }
    ensures parts { IfOk result (λ parts. AreParts line.now parts.items) }
    ensures first { IfOk result (λ parts. (part : Line) → slice_get parts.items 0 ≡ Some part →
        IsLower line.now param part) }
    ensures second { IfOk result (λ parts. (part : Line) → slice_get parts.items 1 ≡ Some part →
        IsUpper line.now param part) }
    ensures halves { IfOk result (λ parts. (i : ℕ) → HasHalves parts.items i) }
{
    let mut parts = Vec::new(alloc);
    let (first, second) = halves(alloc, line, param)?;
    parts.push(first)?;
    parts.push(second)?;
    for i in 0..inner_parts(depth) {
        let (low, high) = halves_of(alloc, &parts[i])?;
        parts.push(low)?;
        parts.push(high)?;
    }
    Ok(parts)
}

// How many parts have halves, where splits stand so deep above one another.
fn inner_parts(depth: u32) -> usize
    ensures { result ≤ 254 }
{
    let mut count: usize = 0;
    for _level in 1..depth {
        count = (2 * count + 2).min(254);
    }
    count
}

// The halves of a part; where it has none, the part twice.
fn halves_of(alloc: Global, part: &Line) -> Result<(Line, Line), Memory>
    ensures rest { IfOk result (λ halves. SameButParams part.now halves.0 ×
        SameButParams part.now halves.1) }
    ensures halves { IfOk result (λ halves. HalvesIfAny part.now halves.0 halves.1) }
{
    let Some(param) = widest(part) else {
        let again = part.copy(alloc)?;
        let twice = part.copy(alloc)?;
        return Ok((again, twice));
    };
    halves(alloc, part, param)
}
