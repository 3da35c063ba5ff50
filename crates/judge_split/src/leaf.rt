//! Trees of splits, from their parts.

ghost use Rattle.std.specs.Prelude.{◌≡◌, ◌++◌, [], ◌∷◌, IfOk};
ghost use Rattle.judge_split.specs.declared.node.Node.{Node};

use crate::node::Node;
use model_line::Memory;
use std::alloc::Global;

/// The nodes of a tree that is one leaf.
pub fn leaf(alloc: Global, node: Node) -> Result<Vec<Node>, Memory>
    ensures { IfOk result (λ nodes. nodes.items ≡ node ∷ []) }
{
    let mut nodes = Vec::new(alloc);
    nodes.push(node)?;
    Ok(nodes)
}

/// The nodes of a tree that splits at a parameter, in preorder.
pub fn split(
    alloc: Global,
    param: u32,
    mid: u32,
    first: &[Node],
    second: &[Node],
) -> Result<Vec<Node>, Memory>
    ensures { IfOk result (λ nodes.
        nodes.items ≡ Node.Split param mid ∷ (first.now ++ second.now)) }
{
    let mut nodes = leaf(alloc, Node::Split { param, mid })?;
    nodes.extend_from_slice(first)?;
    nodes.extend_from_slice(second)?;
    Ok(nodes)
}
