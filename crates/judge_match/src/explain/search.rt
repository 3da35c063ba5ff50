//! The search.

ghost use Rattle.std.specs.Prelude.{ℕ, List, IfOk, IfSome};
ghost use Rattle.model_history.specs.Rails.{Ends};
ghost use Rattle.model_line.specs.{declared.line.Line.Line, declared.script.Script.Script};
ghost use Rattle.model_logic.specs.Histories.{History};
ghost use Rattle.judge_match.specs.explain.Asked.{IsPart, IsQuestion, recorded_of};
ghost use Rattle.judge_match.specs.explain.Parts.{CanPart, lower_part as lower_part_of};
ghost use Rattle.judge_match.specs.explain.Parts.{upper_part as upper_part_of};
ghost use Rattle.judge_match.specs.explain.Found.{AreNodesOver, IsFound, IsLookOf};

use crate::explain::ahead::{Cut, planned};
use crate::explain::budget::Budget;
use crate::explain::leaf::is_excluded;
use crate::explain::parts::{can_part, lower_part, upper_part};
use crate::explain::question::Question;
use crate::explain::tree::{PartNode, join, leaf};
use crate::explain::tries::{excluded_by_play, tried};
use model_line::Memory;
use model_timing::Timing;
use run_signal::Within;
use std::alloc::Global;

/// What is found over a part: a timing that explains the record, a tree whose leaves are excluded,
/// or neither.
#[derive(Drop)]
pub enum Found {
    Explained(Timing),
    Excluded(Vec<PartNode>),
    Open,
}

// What a look at a part gives: what is found over it, or where to part it, the last cut first.
#[derive(Drop)]
enum Look {
    Found(Found),
    Planned(Vec<Cut>),
}

/// Searches a part. It is parted in two, as planned, at most `depth` times above one another, until
/// each part is excluded or the budget is spent; a timing that explains the record ends the search.
pub fn search_part(
    alloc: Global,
    q: &Question,
    part: &[Within],
    plan: Vec<Cut>,
    depth: u32,
    budget: &mut Budget,
) -> Result<Found, Memory>
    requires question { IsQuestion q.now }
    requires part { IsPart q.now.compiled.line.now part.now }
    ensures { IfOk result (IsFound q.now.compiled.line.now q.now.script.now q.now.within
        (recorded_of q.now) part.now) }
{
    let mut cuts = match looked(alloc, q, part, plan, budget)? {
        Look::Found(found) => return Ok(found),
        Look::Planned(cuts) => cuts,
    };
    let Some(cut) = cuts.pop() else {
        return Ok(Found::Open);
    };
    if depth == 0 || !can_part(q.compiled.line, part, cut.param, cut.mid) {
        return Ok(Found::Open);
    }
    let lower = lower_part(alloc, q.compiled.line, part, cut.param, cut.mid)?;
    let upper = upper_part(alloc, q.compiled.line, part, cut.param, cut.mid)?;
    let (lower_plan, upper_plan) = shared(alloc, cut, cuts);
    let below = match search_part(alloc, q, &lower, lower_plan, depth - 1, budget)? {
        Found::Explained(timing) => return Ok(Found::Explained(timing)),
        Found::Excluded(nodes) => Some(nodes),
        Found::Open => None,
    };
    let above = match search_part(alloc, q, &upper, upper_plan, depth - 1, budget)? {
        Found::Explained(timing) => return Ok(Found::Explained(timing)),
        Found::Excluded(nodes) => Some(nodes),
        Found::Open => None,
    };
    joined(alloc, cut, below, above)
}

// What is found over a part of whose sides these trees were found, if they were.
fn joined(
    alloc: Global,
    cut: Cut,
    below: Option<Vec<PartNode>>,
    above: Option<Vec<PartNode>>,
) -> Result<Found, Memory>
    ensures { IfOk result (λ found. (line : Line) (script : Script) (within : ℕ)
        (recorded : History) (part : List Ends) → CanPart line part cut.param cut.mid →
        IfSome below (λ nodes. AreNodesOver line script within recorded
        (lower_part_of part cut.param cut.mid) nodes.items) →
        IfSome above (λ nodes. AreNodesOver line script within recorded
        (upper_part_of part cut.param cut.mid) nodes.items) →
        IsFound line script within recorded part found) }
{
    let Some(first) = below else {
        return Ok(Found::Open);
    };
    let Some(second) = above else {
        return Ok(Found::Open);
    };
    let nodes = join(alloc, cut.param, cut.mid, &first, &second)?;
    Ok(Found::Excluded(nodes))
}

// What is left of a plan for both sides of a cut: for the side that is to be looked at.
fn shared(alloc: Global, cut: Cut, cuts: Vec<Cut>) -> (Vec<Cut>, Vec<Cut>) {
    if cut.upper {
        (Vec::new(alloc), cuts)
    } else {
        (cuts, Vec::new(alloc))
    }
}

// Looks at a part for which nothing is planned.
fn looked(
    alloc: Global,
    q: &Question,
    part: &[Within],
    plan: Vec<Cut>,
    budget: &mut Budget,
) -> Result<Look, Memory>
    requires question { IsQuestion q.now }
    requires part { IsPart q.now.compiled.line.now part.now }
    ensures { IfOk result (IsLookOf q.now.compiled.line.now q.now.script.now q.now.within
        (recorded_of q.now) part.now) }
{
    if !plan.is_empty() {
        return Ok(Look::Planned(plan));
    }
    budget.count(1);
    if is_excluded(alloc, q, part)? {
        return Ok(Look::Found(Found::Excluded(leaf(alloc)?)));
    }
    if budget.is_spent() {
        return Ok(Look::Found(Found::Open));
    }
    if let Some(timing) = tried(alloc, q, part, budget)? {
        return Ok(Look::Found(Found::Explained(timing)));
    }
    if excluded_by_play(alloc, q, part)? {
        return Ok(Look::Found(Found::Excluded(leaf(alloc)?)));
    }
    Ok(Look::Planned(planned(alloc, q, part, budget)?))
}
