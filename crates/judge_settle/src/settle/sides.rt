//! The two sides of a cut.

ghost use Rattle.std.specs.Prelude.{IfOk, IfSome};
ghost use Rattle.judge_cases.specs.Views.{IsView};
ghost use Rattle.judge_settle.specs.settle.Sides.{AreSides, AreParts, AreBothCases, AreOrdered};
ghost use Rattle.judge_settle.specs.settle.Sides.{AreBranches};
ghost use Rattle.judge_cases.specs.AssumedAt.{span_at};

use judge_ahead::{Chosen, Cut, Side, Span};
use judge_cases::{Assumed, View, assumed_view, can_part, has_span, lower_view, upper_view};
use model_line::{Line, Memory};
use std::alloc::Global;

/// A view, and what is seen of it.
#[derive(Drop)]
pub struct Branch {
    pub view: View,
    pub side: Side,
}

/// The views of both sides of a cut.
#[derive(Drop)]
pub struct BothSides {
    pub first: View,
    pub second: View,
}

/// Both sides of a cut, the one that is further from meeting the obligation first. `turned` says
/// that this is the second.
#[derive(Drop)]
pub struct Branches {
    pub turned: bool,
    pub worse: Branch,
    pub other: Branch,
}

/// Both sides of a cut of a view, if it can be made.
pub fn branches_of(
    alloc: Global,
    line: &Line,
    view: &View,
    chosen: Chosen,
) -> Result<Option<Branches>, Memory>
    requires { IsView line.now view.now }
    ensures { IfOk result (λ found. IfSome found (λ branches.
        AreBranches line.now view.now chosen.cut branches)) }
{
    let Chosen { cut, first, second } = chosen;
    let Some(sides) = sides_of(alloc, line, view, cut)? else {
        return Ok(None);
    };
    let BothSides {
        first: one,
        second: other,
    } = sides;
    let branches = worse_first(
        Branch {
            view: one,
            side: first,
        },
        Branch {
            view: other,
            side: second,
        },
    );
    Ok(Some(branches))
}

// The views of both sides of a cut, if it can be made.
fn sides_of(alloc: Global, line: &Line, view: &View, cut: Cut) -> Result<Option<BothSides>, Memory>
    requires { IsView line.now view.now }
    ensures { IfOk result (λ sides. IfSome sides (λ s.
        AreSides line.now view.now cut s.first s.second)) }
{
    match cut {
        Cut::Parted { param, mid } => parts(alloc, line, view, param, mid),
        Cut::Wanted(span) => cases(alloc, line, view, span),
    }
}

// Both parts of a box, if it can be parted there.
fn parts(
    alloc: Global,
    line: &Line,
    view: &View,
    param: u32,
    mid: u32,
) -> Result<Option<BothSides>, Memory>
    requires { IsView line.now view.now }
    ensures { IfOk result (λ sides. IfSome sides (λ s.
        AreParts line.now view.now param mid s.first s.second)) }
{
    if !can_part(line, view, param, mid) {
        return Ok(None);
    }
    let lower = lower_view(alloc, line, view, param, mid)?;
    let upper = upper_view(alloc, line, view, param, mid)?;
    Ok(Some(BothSides {
        first: lower,
        second: upper,
    }))
}

// Both cases, if they can be told apart there.
fn cases(alloc: Global, line: &Line, view: &View, span: Span) -> Result<Option<BothSides>, Memory>
    ensures { IfOk result (λ sides. IfSome sides (λ s.
        AreBothCases line.now view.now (span_at span.terminal span.from span.to) s.first s.second)) }
{
    let Span { terminal, from, to } = span;
    if !has_span(line, terminal, from, to) {
        return Ok(None);
    }
    let throughout = Assumed::new(terminal, from, to, true);
    let interrupted = Assumed::new(terminal, from, to, false);
    let first = assumed_view(alloc, line, view, throughout)?;
    let second = assumed_view(alloc, line, view, interrupted)?;
    Ok(Some(BothSides { first, second }))
}

// The branch that is further from meeting the obligation, then the other.
fn worse_first(first: Branch, second: Branch) -> Branches
    ensures { AreOrdered first second result.turned result.worse result.other }
{
    if second.side.score > first.side.score {
        Branches {
            turned: true,
            worse: second,
            other: first,
        }
    } else {
        Branches {
            turned: false,
            worse: first,
            other: second,
        }
    }
}
