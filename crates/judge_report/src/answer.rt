//! What is answered of a parameter.

ghost use Rattle.std.specs.Prelude.{◌≤◌, ◌<◌, length, IfOk};
ghost use Rattle.std.specs.List.{All};
ghost use Rattle.model_line.specs.{Parameters.param_count, Fits.Fits};
ghost use Rattle.judge_report.specs.Answer.{IsMarginAnswer};

use crate::searching::margin;
use crate::text::margin_text;
use model_line::{Memory, Script};
use net_gates::Compiled;
use std::alloc::Global;

/// The line of a parameter, and whether it has a margin.
#[derive(Drop)]
pub struct MarginAnswer {
    pub found: bool,
    pub text: Vec<u8>,
}

/// The margin of a parameter as a line.
pub fn margin_answer(
    alloc: Global,
    compiled: &Compiled<'_>,
    scripts: &[Script],
    param: u32,
) -> Result<MarginAnswer, Memory>
    requires fit { All (Fits compiled.now.line.now) scripts.now }
    requires few { length scripts.now ≤ 64 }
    requires exists { param < param_count compiled.now.line.now }
    ensures { IfOk result (λ said.
        IsMarginAnswer compiled.now.line.now scripts.now param said.found said.text.items) }
{
    let end = margin(alloc, compiled, scripts, param)?;
    let text = margin_text(alloc, compiled.line, scripts, param, &end)?;
    let found = end.greatest.is_some();
    Ok(MarginAnswer { found, text })
}
