//! Trees of parts.

ghost use Rattle.std.specs.Prelude.{◌≡◌, ◌++◌, ◌∷◌, [], IfOk};
ghost use Rattle.judge_match.specs.declared.explain.tree.PartNode.{PartNode};

use model_line::Memory;
use std::alloc::Global;

/// A node of a tree of parts: no timing of the part explains the record; or the part is parted, at
/// `mid` of a parameter.
#[derive(Clone, Copy)]
pub enum PartNode {
    Excluded,
    /// The first tree stands for the numbers up to `mid`, the second for those from `mid + 1` on.
    Parted { param: u32, mid: u32 },
}

/// The nodes of a tree that is one leaf.
pub fn leaf(alloc: Global) -> Result<Vec<PartNode>, Memory>
    ensures { IfOk result (λ nodes. nodes.items ≡ PartNode.Excluded ∷ []) }
{
    let mut nodes = Vec::new(alloc);
    nodes.push(PartNode::Excluded)?;
    Ok(nodes)
}

/// The nodes of both trees behind the node that parts them.
pub fn join(
    alloc: Global,
    param: u32,
    mid: u32,
    first: &[PartNode],
    second: &[PartNode],
) -> Result<Vec<PartNode>, Memory>
    ensures { IfOk result (λ nodes. nodes.items
        ≡ PartNode.Parted param mid ∷ (first.now ++ second.now)) }
{
    let mut nodes = Vec::new(alloc);
    nodes.push(PartNode::Parted { param, mid })?;
    nodes.extend_from_slice(first)?;
    nodes.extend_from_slice(second)?;
    Ok(nodes)
}
