//! Trees while they grow.

ghost use Rattle.std.specs.Prelude.{◌≡◌, ◌++◌, ◌∷◌, [], ◌&&◌, IfOk};
ghost use Rattle.judge_settle.specs.settle.Joined.{node_of, leaf_of, joined};

use judge_ahead::Cut;
use judge_cases::CaseNode;
use model_line::Memory;
use std::alloc::Global;

/// The nodes of a tree in preorder, and whether each leaf is yes.
#[derive(Drop)]
pub struct Grown {
    pub nodes: Vec<CaseNode>,
    pub yes: bool,
}

/// A tree that is one leaf.
pub fn leaf(alloc: Global, yes: bool) -> Result<Grown, Memory>
    ensures nodes { IfOk result (λ tree. tree.nodes.items ≡ leaf_of yes ∷ []) }
    ensures yes { IfOk result (λ tree. tree.yes ≡ yes) }
{
    let mut nodes = Vec::new(alloc);
    nodes.push(if yes {
        CaseNode::Yes
    } else {
        CaseNode::Undecided
    })?;
    Ok(Grown { nodes, yes })
}

/// The trees of both sides behind their cut. `turned` says that the second side comes first here.
pub fn join(
    alloc: Global,
    cut: Cut,
    turned: bool,
    one: &Grown,
    other: &Grown,
) -> Result<Grown, Memory>
    ensures nodes { IfOk result (λ tree. tree.nodes.items
        ≡ node_of cut ∷ joined turned one.now.nodes.items other.now.nodes.items) }
    ensures yes { IfOk result (λ tree. tree.yes ≡ (one.now.yes && other.now.yes)) }
{
    let mut nodes = Vec::new(alloc);
    nodes.push(node(cut))?;
    if turned {
        nodes.extend_from_slice(&other.nodes)?;
        nodes.extend_from_slice(&one.nodes)?;
    } else {
        nodes.extend_from_slice(&one.nodes)?;
        nodes.extend_from_slice(&other.nodes)?;
    }
    let yes = one.yes && other.yes;
    Ok(Grown { nodes, yes })
}

// The node of a cut.
fn node(cut: Cut) -> CaseNode
    ensures { result ≡ node_of cut }
{
    match cut {
        Cut::Parted { param, mid } => CaseNode::Parted { param, mid },
        Cut::Wanted(span) => CaseNode::Wanted {
            terminal: span.terminal,
            from: span.from,
            to: span.to,
        },
    }
}
