//! A guess: the part is narrowed again and again to what is not excluded, and the timing in its middle
//! is tried.

ghost use Rattle.std.specs.Prelude.{IfOk, IfSome};
ghost use Rattle.judge_match.specs.explain.Asked.{IsPart, IsQuestion, recorded_of};
ghost use Rattle.judge_match.specs.explain.Found.{IsExplaining};

use crate::explain::ahead::{Cut, planned};
use crate::explain::budget::Budget;
use crate::explain::parts::{can_part, declared_part, lower_part, upper_part};
use crate::explain::question::Question;
use crate::explain::tries::tried;
use model_line::{Line, Memory};
use model_timing::Timing;
use run_signal::Within;
use std::alloc::Global;

/// How often the part is narrowed at most.
const ROUNDS: u32 = 64;

/// A timing that explains the record, if one is found on the way.
pub fn guessed(alloc: Global, q: &Question, budget: &mut Budget) -> Result<Option<Timing>, Memory>
    requires question { IsQuestion q.now }
    ensures { IfOk result (λ found. IfSome found (λ timing. IsExplaining q.now.compiled.line.now
        q.now.script.now q.now.within (recorded_of q.now) timing)) }
{
    let mut part = declared_part(alloc, q.compiled.line)?;
    for _round in 0..ROUNDS {
        if let Some(timing) = tried(alloc, q, &part, budget)? {
            return Ok(Some(timing));
        }
        let cuts = planned(alloc, q, &part, budget)?;
        if cuts.is_empty() || budget.is_spent() {
            return Ok(None);
        }
        part = narrowed(alloc, q.compiled.line, part, &cuts)?;
    }
    Ok(None)
}

// The part with the side of each cut that is to be looked at further.
fn narrowed(
    alloc: Global,
    line: &Line,
    part: Vec<Within>,
    cuts: &[Cut],
) -> Result<Vec<Within>, Memory>
    requires { IsPart line.now part.items }
    ensures { IfOk result (λ part. IsPart line.now part.items) }
{
    let mut part = part;
    for cut in cuts {
        part = side(alloc, line, part, *cut)?;
    }
    Ok(part)
}

// The side of a cut that is to be looked at further, if it can be made.
fn side(alloc: Global, line: &Line, part: Vec<Within>, cut: Cut) -> Result<Vec<Within>, Memory>
    requires { IsPart line.now part.items }
    ensures { IfOk result (λ part. IsPart line.now part.items) }
{
    if !can_part(line, &part, cut.param, cut.mid) {
        return Ok(part);
    }
    if cut.upper {
        upper_part(alloc, line, &part, cut.param, cut.mid)
    } else {
        lower_part(alloc, line, &part, cut.param, cut.mid)
    }
}
