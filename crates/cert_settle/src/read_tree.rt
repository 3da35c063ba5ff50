//! The lines of a tree, read one after another.

ghost use Rattle.std.specs.Prelude.{◌≡◌, ◌++◌, ◌-◌, [], ◌∷◌, List, MatchResult};
ghost use Rattle.model_logic.specs.Choice.{Box};
ghost use Rattle.base_text.specs.{lines.Grammar.IsFault, lines.Lines.LeavesAt};
ghost use Rattle.judge_cases.specs.Views.{IsView, view_box};
ghost use Rattle.cert_settle.specs.Grammar.{Place, Root, roots, says_node, MayStand, expected};
ghost use Rattle.cert_settle.specs.Grammar.{after_node, grammar_of, Stands, opens};
ghost use Rattle.cert_settle.specs.Reading.{GoesOn, IsOverBox, IsBelow, IsOver, AreTwo};

use crate::branch_line::{Limits, node_in};
use base_memory::Stopped;
use base_text::lines::{LineCursor, TextFault};
use judge_cases::{CaseNode, View, lower_view, upper_view};
use model_line::Line;
use std::alloc::Global;

// Takes the line of a node over the box of a view.
fn next_node(
    line: &Line,
    view: &View,
    limits: Limits,
    lines: &mut LineCursor<'_>,
) -> Result<CaseNode, TextFault>
    ensures { (box : Box) (others : List Root) (later : List Place) →
        IsOverBox line.now box view.now → MatchResult result
        (λ node. MayStand line.now limits.room (record { depth = limits.depth; box = box }) node
        × GoesOn line.now
        (expected limits.room (record { depth = limits.depth; box = box } ∷ others) ++ later)
        (says_node node ∷ []) lines.old.rest.now lines.old.number
        (after_node limits.room (record { depth = limits.depth; box = box }) others node ++ later)
        lines.new.rest.now lines.new.number)
        (λ fault. LeavesAt (Stands line.now) opens
        (expected limits.room (record { depth = limits.depth; box = box } ∷ others) ++ later)
        lines.old.rest.now lines.old.number fault.line) }
{
    let number = lines.number;
    let bytes = lines.take_line()?;
    match node_in(line, view, limits, bytes) {
        Some(node) => Ok(node),
        None => Err(TextFault { line: number }),
    }
}

// Adds the nodes of a tree over the box of a view, whose lines come next. The answer is how many
// parts and pairs of cases may still come.
#[cycle(tree)]
fn read_tree(
    alloc: Global,
    line: &Line,
    view: &View,
    limits: Limits,
    lines: &mut LineCursor<'_>,
    nodes: &mut Vec<CaseNode>,
) -> Result<u32, Stopped<TextFault>>
    requires { IsView line.now view.now }
    ensures { (box : Box) (others : List Root) (later : List Place) →
        IsOverBox line.now box view.now → MatchResult result
        (λ left. IsOver line.now (record { depth = limits.depth; box = box }) limits.room left
        nodes.old.items nodes.new.items others lines.old.rest.now lines.old.number later
        lines.new.rest.now lines.new.number)
        (λ why. IsFault (grammar_of line.now)
        (expected limits.room (record { depth = limits.depth; box = box } ∷ others) ++ later)
        lines.old.rest.now lines.old.number why) }
{
    let node = next_node(line, view, limits, lines)?;
    read_below(alloc, line, view, limits, node, lines, nodes)
}

// Adds the nodes of two trees, over the boxes of these views.
#[cycle(tree)]
fn read_two(
    alloc: Global,
    line: &Line,
    first: &View,
    second: &View,
    limits: Limits,
    lines: &mut LineCursor<'_>,
    nodes: &mut Vec<CaseNode>,
) -> Result<u32, Stopped<TextFault>>
    requires first { IsView line.now first.now }
    requires second { IsView line.now second.now }
    ensures { (lower upper : Box) (others : List Root) (later : List Place) →
        IsOverBox line.now lower first.now → IsOverBox line.now upper second.now →
        MatchResult result
        (λ left. AreTwo line.now (record { depth = limits.depth; box = lower })
        (record { depth = limits.depth; box = upper }) limits.room left
        nodes.old.items nodes.new.items others lines.old.rest.now lines.old.number later
        lines.new.rest.now lines.new.number)
        (λ why. IsFault (grammar_of line.now)
        (expected limits.room (record { depth = limits.depth; box = lower }
        ∷ (record { depth = limits.depth; box = upper } ∷ others)) ++ later)
        lines.old.rest.now lines.old.number why) }
{
    let room = read_tree(alloc, line, first, limits, lines, nodes)?;
    let depth = limits.depth;
    read_tree(alloc, line, second, Limits { depth, room }, lines, nodes)
}

/// Adds a node, which was read over the box of this view, and reads the lines below it. The answer
/// is how many parts and pairs of cases may still come.
#[cycle(tree)]
pub(crate) fn read_below(
    alloc: Global,
    line: &Line,
    view: &View,
    limits: Limits,
    root: CaseNode,
    lines: &mut LineCursor<'_>,
    nodes: &mut Vec<CaseNode>,
) -> Result<u32, Stopped<TextFault>>
    requires view { IsView line.now view.now }
    requires root { MayStand line.now limits.room
        (record { depth = limits.depth; box = view_box line.now view.now }) root }
    ensures { (box : Box) (others : List Root) (later : List Place) →
        IsOverBox line.now box view.now → MatchResult result
        (λ left. IsBelow line.now (record { depth = limits.depth; box = box }) root limits.room left
        nodes.old.items nodes.new.items others lines.old.rest.now lines.old.number later
        lines.new.rest.now lines.new.number)
        (λ why. IsFault (grammar_of line.now)
        (after_node limits.room (record { depth = limits.depth; box = box }) others root ++ later)
        lines.old.rest.now lines.old.number why) }
{
    nodes.push(root)?;
    match root {
        CaseNode::Parted { param, mid } => {
            let lower = lower_view(alloc, line, view, param, mid)?;
            let upper = upper_view(alloc, line, view, param, mid)?;
            let (depth, room) = (limits.depth - 1, limits.room - 1);
            read_two(
                alloc,
                line,
                &lower,
                &upper,
                Limits { depth, room },
                lines,
                nodes,
            )
        }
        CaseNode::Wanted {
            terminal: _terminal,
            from: _from,
            to: _to,
        } => {
            let (depth, room) = (limits.depth - 1, limits.room - 1);
            read_two(
                alloc,
                line,
                view,
                view,
                Limits { depth, room },
                lines,
                nodes,
            )
        }
        CaseNode::Yes => Ok(limits.room),
        CaseNode::Undecided => Ok(limits.room),
    }
}
