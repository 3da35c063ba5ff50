//! The check of a tree: a walk through its nodes, each leaf with its part of the box.

ghost use Rattle.std.specs.Prelude.{◌≡◌, ◌≤◌, ◌<◌, ◌+◌, ◌++◌, ◌^◌, List, length, drop, MatchResult};
ghost use Rattle.base_memory.specs.Gives.{OfFault};
ghost use Rattle.model_line.specs.{declared.line.Line.Line, Fits.Fits, Parameters.terminal_count};
ghost use Rattle.model_logic.specs.Choice.{Box, declared_box};
ghost use Rattle.model_logic.specs.HeldOver.{IsHeldOver};
ghost use Rattle.judge_split.specs.declared.node.Node.{Node};
ghost use Rattle.judge_split.specs.{Leaves.Splits, Parts.IsPart, Trees.SplitTree, Trees.preorder};
ghost use Rattle.cert_split.specs.check.Walks.{BeginWithTree, IsWalked, IsLeafFault, IsNotHeldFrom};

use crate::check::held::is_held;
use base_memory::Stopped;
use judge_split::{Node, a_part_stands_for_its_box, lower_part, upper_part};
use model_line::laws::{counts_do_not_rest_on_the_intervals, scripts_fit_whatever_the_intervals};
use model_line::{Line, Script};
use net_gates::Compiled;
use net_gates::laws::nets_do_not_rest_on_the_intervals;
use std::alloc::Global;

/// How many nodes and how many leaves of a tree a walk has passed.
#[derive(Clone, Copy)]
pub(crate) struct Passed {
    pub nodes: usize,
    pub leaves: u32,
}

/// The number of a yes leaf whose rule is not held.
#[derive(Clone, Copy, Drop)]
pub(crate) struct NotHeld {
    pub leaf: u32,
}

/// Walks through the tree that comes next among the nodes, over the declared box of `part`. The
/// error is its first yes leaf whose rule is not held.
pub(crate) fn walk(
    alloc: Global,
    part: &Compiled<'_>,
    script: &Script,
    terminal: u32,
    nodes: &[Node],
    passed: Passed,
) -> Result<Passed, Stopped<NotHeld>>
    requires fits { Fits part.now.line.now script.now }
    requires terminal { terminal < terminal_count part.now.line.now }
    requires few { length nodes.now < 2 ^ 32 }
    requires leaves { passed.leaves ≤ passed.nodes }
    requires tree { BeginWithTree part.now.line.now (drop passed.nodes nodes.now) }
    ensures { (line : Line) (box : Box) (tree : SplitTree) (after : List Node) →
        IsPart line box part.now.line.now → Splits line box tree →
        drop passed.nodes nodes.now ≡ preorder tree ++ after → MatchResult result
        (λ walked. IsWalked line script.now terminal box tree passed walked)
        (OfFault (IsNotHeldFrom line script.now terminal box tree passed.leaves)) }
{
    a_part_stands_for_its_box();
    nets_do_not_rest_on_the_intervals();
    scripts_fit_whatever_the_intervals();
    counts_do_not_rest_on_the_intervals();
    match nodes[passed.nodes] {
        Node::Yes => {
            check_leaf(alloc, part, script, terminal, passed.leaves)?;
            Ok(after_leaf(passed))
        }
        Node::Undecided => Ok(after_leaf(passed)),
        Node::Split { param, mid } => {
            let lower_line = lower_part(alloc, part.line, param, mid)?;
            let lower = Compiled {
                line: &lower_line,
                net: part.net,
            };
            let between = walk(alloc, &lower, script, terminal, nodes, after_split(passed))?;
            let upper_line = upper_part(alloc, part.line, param, mid)?;
            let upper = Compiled {
                line: &upper_line,
                net: part.net,
            };
            walk(alloc, &upper, script, terminal, nodes, between)
        }
    }
}

fn after_leaf(passed: Passed) -> Passed
    requires few { passed.nodes + 1 < 2 ^ 32 }
    requires leaves { passed.leaves ≤ passed.nodes }
    ensures nodes { result.nodes ≡ passed.nodes + 1 }
    ensures leaves { result.leaves ≡ passed.leaves + 1 }
{
    Passed {
        nodes: passed.nodes + 1,
        leaves: passed.leaves + 1,
    }
}

fn after_split(passed: Passed) -> Passed
    requires { passed.nodes < 2 ^ 32 }
    ensures nodes { result.nodes ≡ passed.nodes + 1 }
    ensures leaves { result.leaves ≡ passed.leaves }
{
    Passed {
        nodes: passed.nodes + 1,
        leaves: passed.leaves,
    }
}

// Checks the yes leaf of this number, over the declared box of `part`.
fn check_leaf(
    alloc: Global,
    part: &Compiled<'_>,
    script: &Script,
    terminal: u32,
    leaf: u32,
) -> Result<(), Stopped<NotHeld>>
    requires fits { Fits part.now.line.now script.now }
    requires terminal { terminal < terminal_count part.now.line.now }
    ensures { MatchResult result
        (λ _. IsHeldOver part.now.line.now script.now terminal (declared_box part.now.line.now))
        (OfFault (IsLeafFault part.now.line.now script.now terminal leaf)) }
{
    if is_held(alloc, part, script, terminal)? {
        Ok(())
    } else {
        Err(Stopped::Fault(NotHeld { leaf }))
    }
}
