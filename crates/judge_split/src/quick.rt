//! The search by rules alone, where no candidate of a part fails.

ghost use Rattle.std.specs.Prelude.{◌≡◌, ◌<◌, ◌≤◌, ℕ, Bool, false, IfOk, IfSome, IsTrue, Some};
ghost use Rattle.std.specs.Prelude.{length, slice_get};
ghost use Rattle.model_history.specs.Rails.{IsPartOf};
ghost use Rattle.model_line.specs.Parameters.{terminal_count, param_count, declared_ends};
ghost use Rattle.model_line.specs.{Fits.Fits, SetBounds.SameButParams};
ghost use Rattle.judge_verdict.specs.declared.verdict.verdict.Verdict.{Verdict};
ghost use Rattle.judge_verdict.specs.boxes.Held.{AreParts};
ghost use Rattle.model_history.specs.Recorded.{at as is_wide};
ghost use Rattle.judge_split.specs.Quiet.{AreNodesIfTold, HasHalves, IsNarrowed};
ghost use Rattle.judge_split.specs.{Found.AreNodes, Search.IsVerdictOf, Widths.IsWidest};

use crate::corners::{corners, wide_in};
use crate::known::laws_below;
use crate::leaf::{leaf, split};
use crate::node::Node;
use crate::parts::parts_of;
use crate::widest::widest;
use judge_verdict::boxes::held_each;
use model_line::{Line, Memory, Script};
use net_gates::Compiled;
use std::alloc::Global;

/// The nodes that the search finds where the box is undecided and split at this parameter, if it is
/// known that no candidate of a part fails.
pub fn quick(
    alloc: Global,
    compiled: &Compiled<'_>,
    script: &Script,
    terminal: u32,
    param: u32,
    depth: u32,
) -> Result<Option<Vec<Node>>, Memory>
    requires fits { Fits compiled.now.line.now script.now }
    requires terminal { terminal < terminal_count compiled.now.line.now }
    requires undecided { IsVerdictOf compiled.now.line.now script.now terminal Verdict.Undecided }
    requires widest { IsWidest compiled.now.line.now param }
    requires depth { 1 ≤ depth }
    ensures { IfOk result (λ found. IfSome found (λ nodes.
        AreNodes compiled.now.line.now script.now terminal depth nodes.items)) }
{
    laws_below();
    let parts = parts_of(alloc, compiled.line, param, depth)?;
    let wide = wide_in(alloc, compiled.line, &parts)?;
    let boxes = corners(alloc, compiled.line, &wide)?;
    let quiet = held_each(alloc, compiled, script, terminal, &boxes)?;
    if !are_all(&quiet) {
        return Ok(None);
    }
    let held = held_each(alloc, compiled, script, terminal, &parts)?;
    let Some(first) = nodes_at(alloc, compiled.line, &wide, &parts, &held, 0, depth - 1)? else {
        return Ok(None);
    };
    let Some(second) = nodes_at(alloc, compiled.line, &wide, &parts, &held, 1, depth - 1)? else {
        return Ok(None);
    };
    let mid = compiled.line.middle(param);
    Ok(Some(split(alloc, param, mid, &first, &second)?))
}

fn are_all(held: &[bool]) -> bool
    ensures { IsTrue result → (i : ℕ) (b : Bool) → slice_get held.now i ≡ Some b → IsTrue b }
{
    for one in held {
        if !*one {
            return false;
        }
    }
    true
}

// The nodes of a part, by whether the rule is held over each part.
fn nodes_at(
    alloc: Global,
    line: &Line,
    wide: &[bool],
    parts: &[Line],
    held: &[bool],
    i: usize,
    depth: u32,
) -> Result<Option<Vec<Node>>, Memory>
    requires wide { length wide.now ≡ param_count line.now }
    requires parts { AreParts line.now parts.now }
    requires held { length held.now ≡ length parts.now }
    requires halves { (j : ℕ) → HasHalves parts.now j }
    ensures { IfOk result (λ found. IfSome found (λ nodes.
        AreNodesIfTold line.now wide.now parts.now held.now i depth nodes.items)) }
{
    if i >= parts.len() {
        return Ok(None);
    }
    let part = &parts[i];
    if !is_narrowed(line, wide, part) {
        return Ok(None);
    }
    if held[i] {
        return Ok(Some(leaf(alloc, Node::Yes)?));
    }
    let Some(param) = widest(part) else {
        return Ok(Some(leaf(alloc, Node::Undecided)?));
    };
    if depth == 0 {
        return Ok(Some(leaf(alloc, Node::Undecided)?));
    }
    let Some(first) = nodes_at(alloc, line, wide, parts, held, 2 * i + 2, depth - 1)? else {
        return Ok(None);
    };
    let Some(second) = nodes_at(alloc, line, wide, parts, held, 2 * i + 3, depth - 1)? else {
        return Ok(None);
    };
    let mid = part.middle(param);
    Ok(Some(split(alloc, param, mid, &first, &second)?))
}

// Whether the part has the line's interval for each parameter that is not wide, and a part of it
// for each other.
fn is_narrowed(line: &Line, wide: &[bool], part: &Line) -> bool
    requires wide { length wide.now ≡ param_count line.now }
    requires part { SameButParams line.now part.now }
    ensures { IsTrue result → IsNarrowed line.now wide.now part.now }
{
    laws_below();
    for param in 0..line.param_count() {
        if !is_narrowed_at(line, wide, part, param) {
            return false;
        }
    }
    true
}

fn is_narrowed_at(line: &Line, wide: &[bool], part: &Line, param: u32) -> bool
    requires wide { length wide.now ≡ param_count line.now }
    requires param { param < param_count line.now }
    requires part { param < param_count part.now }
    ensures within { IsTrue result → IsPartOf (declared_ends part.now param)
        (declared_ends line.now param) }
    ensures same { IsTrue result → is_wide wide.now param ≡ false →
        declared_ends part.now param ≡ declared_ends line.now param }
{
    let from = line.least(param);
    let to = line.greatest(param);
    let own_from = part.least(param);
    let own_to = part.greatest(param);
    if wide[param as usize] {
        from <= own_from && own_to <= to
    } else {
        own_from == from && own_to == to
    }
}
