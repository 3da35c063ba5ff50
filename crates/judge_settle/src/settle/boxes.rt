//! What is done with one view.

ghost use Rattle.std.specs.Prelude.{◌≡◌, ◌-◌, IfOk, IfSome, MatchOption};
ghost use Rattle.judge_settle.specs.{settle.Trees.IsFailing};
ghost use Rattle.judge_settle.specs.settle.Scenes.{CanSearch};

use crate::settle::budget::Budget;
use crate::settle::play::fails;
use crate::settle::sides::Branch;
use judge_ahead::{
    Assumed, CANDIDATES, Chosen, Cut, Scene, Side, Span, choose, cuts_of, failing, side_of,
    spans_of,
};
use judge_cases::View;
use model_line::Memory;
use model_timing::Timing;
use net_gates::Compiled;
use std::alloc::Global;

/// What is seen of a view.
pub fn side_in(
    alloc: Global,
    scene: &Scene,
    view: &View,
    budget: &mut Budget,
) -> Result<Side, Memory>
    ensures { budget.new.cuts ≡ budget.old.cuts }
{
    budget.count(1);
    let assumed = assumed_in(alloc, view)?;
    side_of(alloc, scene, &view.ends, &assumed)
}

/// A timing of the box that fails the obligation, if one of its candidates does. Where the last cut
/// told two cases apart none is tried, since the box is as before.
pub fn failing_in(
    alloc: Global,
    compiled: &Compiled<'_>,
    scene: &Scene,
    view: &View,
    same: bool,
    budget: &mut Budget,
) -> Result<Option<Timing>, Memory>
    requires { CanSearch compiled.now.line.now scene.now.script.now
        scene.now.terminal }
    ensures found { IfOk result (λ found. IfSome found (λ timing.
        IsFailing compiled.now.line.now scene.now.script.now scene.now.terminal timing)) }
    ensures cuts { budget.new.cuts ≡ budget.old.cuts }
{
    if same {
        return Ok(None);
    }
    budget.count(CANDIDATES);
    let Some(timing) = failing(alloc, scene, &view.ends)? else {
        return Ok(None);
    };
    let terminal = scene.terminal;
    if fails(alloc, compiled, scene.script, terminal, &timing)? {
        return Ok(Some(timing));
    }
    Ok(None)
}

/// Where to cut a view, if that helps: at a span that settles a side, else wherever it helps most.
pub fn choose_in(
    alloc: Global,
    scene: &Scene,
    branch: &Branch,
    budget: &mut Budget,
) -> Result<Option<Chosen>, Memory>
    ensures { IfOk result (λ chosen. MatchOption chosen (budget.new.cuts ≡ budget.old.cuts)
        (λ _. budget.new.cuts ≡ budget.old.cuts - 1)) }
{
    let ends = &branch.view.ends;
    let stretches = &branch.side.stretches;
    let assumed = assumed_in(alloc, &branch.view)?;
    let spans = spans_of(alloc, scene, ends, &assumed, stretches)?;
    budget.count(spans.analyses);
    if let Some(chosen) = choose_among(alloc, scene, branch, &spans.cuts, true, budget)? {
        return Ok(Some(chosen));
    }
    let cuts = cuts_of(alloc, scene, ends, stretches)?;
    choose_among(alloc, scene, branch, &cuts, false, budget)
}

// One of these cuts, if it helps.
fn choose_among(
    alloc: Global,
    scene: &Scene,
    branch: &Branch,
    cuts: &[Cut],
    settling: bool,
    budget: &mut Budget,
) -> Result<Option<Chosen>, Memory>
    ensures { IfOk result (λ chosen. MatchOption chosen (budget.new.cuts ≡ budget.old.cuts)
        (λ _. budget.new.cuts ≡ budget.old.cuts - 1)) }
{
    if cuts.is_empty() {
        return Ok(None);
    }
    let count = u32::try_from(cuts.len()).unwrap_or(u32::MAX);
    budget.count(count.saturating_mul(2));
    let ends = &branch.view.ends;
    let assumed = assumed_in(alloc, &branch.view)?;
    let score = branch.side.score;
    let Some(chosen) = choose(alloc, scene, ends, &assumed, cuts, score, settling)? else {
        return Ok(None);
    };
    budget.cut(matches!(chosen.cut, Cut::Wanted(_)));
    Ok(Some(chosen))
}

// What a view assumes.
fn assumed_in(alloc: Global, view: &View) -> Result<Vec<Assumed>, Memory> {
    let mut all = Vec::with_capacity(alloc, view.assumed.len())?;
    for one in &view.assumed {
        let (terminal, from, to, throughout) = one.parts();
        let span = Span { terminal, from, to };
        all.push(Assumed { span, throughout })?;
    }
    Ok(all)
}
