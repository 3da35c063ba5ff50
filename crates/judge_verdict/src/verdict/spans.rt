//! The declared intervals as spans.

ghost use Rattle.std.specs.Prelude.{◌≡◌, IfOk};
ghost use Rattle.judge_verdict.specs.verdict.Spans.{declared_spans as spans_of};

use model_line::{Line, Memory};
use run_signal::Within;
use std::alloc::Global;

/// The declared interval of each parameter, in order.
pub fn declared_spans(alloc: Global, line: &Line) -> Result<Vec<Within>, Memory>
    ensures { IfOk result (λ spans. spans.items ≡ spans_of line.now) }
{
    let mut spans = Vec::with_capacity(alloc, line.params.len())?;
    for param in &line.params {
        spans.push(Within::new(param.least, param.greatest))?;
    }
    Ok(spans)
}
