//! The least and the greatest times of a part, as parts.

ghost use Rattle.std.specs.Prelude.{◌≡◌, IfOk};
ghost use Rattle.judge_times.specs.Ends.{end_of};

use model_line::Memory;
use run_signal::Within;
use std::alloc::Global;

/// Each time at its least, or at its greatest.
pub(crate) fn end_of(alloc: Global, part: &[Within], late: bool) -> Result<Vec<Within>, Memory>
    ensures { IfOk result (λ new. new.items ≡ end_of late part.now) }
{
    let mut new = Vec::new(alloc);
    for own in part {
        let t = if late { own.greatest() } else { own.least() };
        new.push(Within::new(t, t))?;
    }
    Ok(new)
}
