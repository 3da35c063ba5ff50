//! The lines of a tree, read one after another.

ghost use Rattle.std.specs.Prelude.{◌≡◌, ◌++◌, [], ◌∷◌, List, MatchResult};
ghost use Rattle.model_line.specs.SetBounds.{SameButParams};
ghost use Rattle.model_logic.specs.Choice.{Box, declared_box};
ghost use Rattle.base_text.specs.{lines.Grammar.IsFault, lines.Lines.Goes, lines.Lines.LeavesAt};
ghost use Rattle.judge_split.specs.Parts.{IsPart};
ghost use Rattle.cert_split.specs.text.Grammar.{Place, node_over, says_node, MayStand, below};
ghost use Rattle.cert_split.specs.text.Grammar.{Stands};
ghost use Rattle.cert_split.specs.text.Grammar.{opens, grammar_of};
ghost use Rattle.cert_split.specs.text.Reading.{IsBelow, IsOver};

use crate::text::known::laws_below;
use crate::text::node_line::node_in;
use base_memory::Stopped;
use base_text::lines::{LineCursor, TextFault};
use judge_split::{Node, lower_part, upper_part};
use model_line::Line;
use std::alloc::Global;

// Takes the line of a node over a part of the box, with at most `depth` splits above one another.
fn next_node(
    line: &Line,
    part: &Line,
    depth: u32,
    lines: &mut LineCursor<'_>,
) -> Result<Node, TextFault>
    requires { SameButParams line.now part.now }
    ensures { (box : Box) (later : List Place) → IsPart line.now box part.now → MatchResult result
        (λ node. MayStand part.now depth (declared_box part.now) node
        × Goes (Stands line.now) opens (node_over depth box ∷ later) (says_node node ∷ [])
        lines.old.rest.now lines.old.number (below depth box node ++ later)
        lines.new.rest.now lines.new.number)
        (λ fault. LeavesAt (Stands line.now) opens (node_over depth box ∷ later)
        lines.old.rest.now lines.old.number fault.line) }
{
    laws_below();
    let number = lines.number;
    let bytes = lines.take_line()?;
    match node_in(line, part, depth, bytes) {
        Some(node) => Ok(node),
        None => Err(TextFault { line: number }),
    }
}

// Adds the nodes of a tree over a part of the box, whose lines come next.
#[cycle(tree)]
fn read_half(
    alloc: Global,
    line: &Line,
    part: &Line,
    depth: u32,
    lines: &mut LineCursor<'_>,
    nodes: &mut Vec<Node>,
) -> Result<(), Stopped<TextFault>>
    requires { SameButParams line.now part.now }
    ensures { (box : Box) (later : List Place) → IsPart line.now box part.now → MatchResult result
        (λ _. IsOver line.now depth box nodes.old.items nodes.new.items lines.old.rest.now
        lines.old.number later lines.new.rest.now lines.new.number)
        (λ why. IsFault (grammar_of line.now) (node_over depth box ∷ later) lines.old.rest.now
        lines.old.number why) }
{
    laws_below();
    let root = next_node(line, part, depth, lines)?;
    read_below(alloc, line, part, depth, root, lines, nodes)
}

/// Adds a node, which was read over this part of the box, and reads the lines below it.
#[cycle(tree)]
pub(crate) fn read_below(
    alloc: Global,
    line: &Line,
    part: &Line,
    depth: u32,
    root: Node,
    lines: &mut LineCursor<'_>,
    nodes: &mut Vec<Node>,
) -> Result<(), Stopped<TextFault>>
    requires part { SameButParams line.now part.now }
    requires root { MayStand part.now depth (declared_box part.now) root }
    ensures { (box : Box) (later : List Place) → IsPart line.now box part.now → MatchResult result
        (λ _. IsBelow line.now depth box root nodes.old.items nodes.new.items lines.old.rest.now
        lines.old.number later lines.new.rest.now lines.new.number)
        (λ why. IsFault (grammar_of line.now) (below depth box root ++ later) lines.old.rest.now
        lines.old.number why) }
{
    laws_below();
    nodes.push(root)?;
    match root {
        Node::Split { param, mid } => {
            let half = lower_part(alloc, part, param, mid)?;
            read_half(alloc, line, &half, depth - 1, lines, nodes)?;
            let other = upper_part(alloc, part, param, mid)?;
            read_half(alloc, line, &other, depth - 1, lines, nodes)
        }
        Node::Yes => Ok(()),
        Node::Undecided => Ok(()),
    }
}
