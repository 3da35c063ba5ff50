//! Where to part a part. Nothing is promised of it but that it is safe and ends.

ghost use Rattle.std.specs.Prelude.{IfOk};
ghost use Rattle.model_line.specs.declared.line.Line.{Line};
ghost use Rattle.judge_match.specs.explain.Asked.{IsPart, IsQuestion};

use crate::explain::budget::Budget;
use crate::explain::leaf::run_part;
use crate::explain::outlook::{Outlook, outlook_of};
use crate::explain::parts::{can_part, interval, lower_part, upper_part};
use crate::explain::question::Question;
use model_line::Memory;
use run_signal::Within;
use std::alloc::Global;

/// How often the interval of one parameter is halved at most, one time after the other.
const HALVINGS: u32 = 12;

/// A part is parted at `mid` of a parameter. `upper` says which side is to be looked at further: the
/// other is excluded, as far as is seen, or leaves more open.
#[derive(Clone, Copy)]
pub struct Cut {
    pub param: u32,
    pub mid: u32,
    pub upper: bool,
}

/// Where to part a part, the last cut first: at each parameter again and again where one side is
/// excluded, each time in what the cuts before leave; if there is no such cut, where both sides leave
/// the least open.
pub fn planned(
    alloc: Global,
    q: &Question,
    part: &[Within],
    budget: &mut Budget,
) -> Result<Vec<Cut>, Memory>
    requires question { IsQuestion q.now }
    requires part { IsPart q.now.compiled.line.now part.now }
{
    let mut part = Vec::from_slice(alloc, part)?;
    let mut plan = Plan {
        cuts: Vec::new(alloc),
        best: None,
        open: u32::MAX,
    };
    for param in 0..q.compiled.line.param_count() {
        if budget.is_spent() {
            return plan.cuts();
        }
        part = halved(alloc, q, part, param, &mut plan, budget)?;
    }
    plan.cuts()
}

// The cuts that exclude a side, and the best of the others.
#[derive(Drop)]
struct Plan {
    cuts: Vec<Cut>,
    best: Option<Cut>,
    open: u32,
}

impl Plan {
    fn cuts(self) -> Result<Vec<Cut>, Memory> {
        let Plan { cuts, best, .. } = self;
        let mut cuts = cuts;
        if cuts.is_empty() {
            if let Some(best) = best {
                cuts.push(best)?;
            }
        }
        cuts.reverse();
        Ok(cuts)
    }
}

// The part with the interval of a parameter halved as often as one half is excluded.
fn halved(
    alloc: Global,
    q: &Question,
    part: Vec<Within>,
    param: u32,
    plan: &mut Plan,
    budget: &mut Budget,
) -> Result<Vec<Within>, Memory>
    requires question { IsQuestion q.now }
    requires part { IsPart q.now.compiled.line.now part.items }
    ensures { IfOk result (λ part. IsPart q.now.compiled.line.now part.items) }
{
    let mut part = part;
    for _halving in 0..HALVINGS {
        let mid = middle(&part, param);
        if !can_part(q.compiled.line, &part, param, mid) {
            return Ok(part);
        }
        budget.count(2);
        let lower = lower_part(alloc, q.compiled.line, &part, param, mid)?;
        let upper = upper_part(alloc, q.compiled.line, &part, param, mid)?;
        let below = look_at(alloc, q, &lower)?;
        let above = look_at(alloc, q, &upper)?;
        note(param, mid, below, above, plan)?;
        if !below.out && !above.out {
            return Ok(part);
        }
        part = side(below.out, lower, upper);
    }
    Ok(part)
}

// The side that is to be looked at further.
fn side(upper_side: bool, lower: Vec<Within>, upper: Vec<Within>) -> Vec<Within>
    ensures { (line : Line) → IsPart line lower.items → IsPart line upper.items →
        IsPart line result.items }
{
    if upper_side { upper } else { lower }
}

// The middle of a parameter's interval.
fn middle(part: &[Within], param: u32) -> u32 {
    let ends = interval(part, param);
    let (least, greatest) = (ends.least(), ends.greatest());
    least + (greatest - least) / 2
}

// What is seen of a part.
fn look_at(alloc: Global, q: &Question, part: &[Within]) -> Result<Outlook, Memory>
    requires question { IsQuestion q.now }
    requires part { IsPart q.now.compiled.line.now part.now }
{
    let tracks = run_part(alloc, q, part)?;
    Ok(outlook_of(q, &tracks))
}

// Notes what is seen of both sides of a cut.
fn note(
    param: u32,
    mid: u32,
    below: Outlook,
    above: Outlook,
    plan: &mut Plan,
) -> Result<(), Memory> {
    if below.out || above.out {
        let upper = below.out;
        plan.cuts.push(Cut { param, mid, upper })?;
        return Ok(());
    }
    let open = below.open.saturating_add(above.open);
    if open < plan.open {
        let upper = above.open < below.open;
        plan.open = open;
        plan.best = Some(Cut { param, mid, upper });
    }
    Ok(())
}
