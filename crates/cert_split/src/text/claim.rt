//! What a text of split trees says of an obligation.

use judge_split::Node;

/// The result of an obligation, which is a script at a terminal, as a text claims it: a tree, its
/// nodes in preorder, or the numbers at which the obligation fails, one for each parameter.
#[derive(Drop)]
pub enum SplitClaim {
    Tree(Vec<Node>),
    Fails(Vec<u32>),
}
