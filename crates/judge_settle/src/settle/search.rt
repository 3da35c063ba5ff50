//! The search.

ghost use Rattle.std.specs.Prelude.{◌≤◌, ◌-◌, IfOk};
ghost use Rattle.judge_cases.specs.Views.{IsView, AreViews};
ghost use Rattle.judge_settle.specs.settle.Scenes.{CanSearch};
ghost use Rattle.judge_settle.specs.settle.Leaves.{AreMoreViews, IsFoundWith};

use crate::settle::boxes::{choose_in, failing_in};
use crate::settle::budget::Budget;
use crate::settle::grown::{Grown, join, leaf};
use crate::settle::leaves::taken_leaf;
use crate::settle::sides::{Branch, Branches, branches_of};
use judge_ahead::{Cut, Scene};
use judge_cases::View;
use model_line::Memory;
use model_timing::Timing;
use net_gates::Compiled;
use std::alloc::Global;

/// A tree, or a timing that fails.
#[derive(Drop)]
pub enum Found {
    Tree(Grown),
    Fails(Timing),
}

/// Searches a view: it is cut in two, at most `depth` times above one another, until each part is
/// taken to be shown or the budget is spent. What has to be shown is added to the leaves. A timing
/// that fails ends the search. `same` says that the last cut told two cases apart, so that the box is
/// as before.
pub fn search_view(
    alloc: Global,
    compiled: &Compiled<'_>,
    scene: &Scene,
    branch: Branch,
    same: bool,
    depth: u32,
    budget: &mut Budget,
    leaves: &mut Vec<View>,
) -> Result<Found, Memory>
    requires can { CanSearch compiled.now.line.now scene.now.script.now
        scene.now.terminal }
    requires view { IsView compiled.now.line.now branch.view }
    requires leaves { AreViews compiled.now.line.now leaves.old.items }
    // The tree has at most so many cuts above one another, and no more of them than were spent.
    ensures found { IfOk result (λ found. IsFoundWith compiled.now.line.now scene.now.script.now
        scene.now.terminal (record { depth = depth; cuts = budget.old.cuts - budget.new.cuts })
        branch.view leaves.new.items found) }
    ensures spent { IfOk result (λ _. budget.new.cuts ≤ budget.old.cuts) }
    ensures leaves { IfOk result (λ _.
        AreMoreViews compiled.now.line.now leaves.old.items leaves.new.items) }
{
    if branch.side.met {
        let Branch { view, side: _side } = branch;
        return Ok(Found::Tree(taken_leaf(alloc, view, leaves)?));
    }
    if depth == 0 || budget.is_spent() {
        return Ok(Found::Tree(leaf(alloc, false)?));
    }
    if let Some(timing) = failing_in(alloc, compiled, scene, &branch.view, same, budget)? {
        return Ok(Found::Fails(timing));
    }
    let Some(chosen) = choose_in(alloc, scene, &branch, budget)? else {
        return Ok(Found::Tree(leaf(alloc, false)?));
    };
    let cut = chosen.cut;
    let Some(branches) = branches_of(alloc, compiled.line, &branch.view, chosen)? else {
        return Ok(Found::Tree(leaf(alloc, false)?));
    };
    let Branches {
        turned,
        worse,
        other,
    } = branches;
    let next = matches!(cut, Cut::Wanted(_));
    let worse_tree = match search_view(
        alloc,
        compiled,
        scene,
        worse,
        next,
        depth - 1,
        budget,
        leaves,
    )? {
        Found::Tree(tree) => tree,
        Found::Fails(timing) => return Ok(Found::Fails(timing)),
    };
    let other_tree = match search_view(
        alloc,
        compiled,
        scene,
        other,
        next,
        depth - 1,
        budget,
        leaves,
    )? {
        Found::Tree(tree) => tree,
        Found::Fails(timing) => return Ok(Found::Fails(timing)),
    };
    let tree = join(alloc, cut, turned, &worse_tree, &other_tree)?;
    Ok(Found::Tree(tree))
}
