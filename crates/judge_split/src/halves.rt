//! The two halves of a line.

ghost use Rattle.std.specs.Prelude.{IfOk};
ghost use Rattle.judge_split.specs.{Search.IsLower, Search.IsUpper, Widths.IsWidest};

use crate::part::{lower_part, upper_part};
use model_line::{Line, Memory};
use std::alloc::Global;

/// The lines with the lower and with the upper half of the interval of the widest parameter.
pub fn halves(alloc: Global, line: &Line, param: u32) -> Result<(Line, Line), Memory>
    requires { IsWidest line.now param }
    ensures { IfOk result (λ halves. IsLower line.now param halves.0 ×
        IsUpper line.now param halves.1) }
{
    let mid = line.middle(param);
    let first = lower_part(alloc, line, param, mid)?;
    let second = upper_part(alloc, line, param, mid)?;
    Ok((first, second))
}
