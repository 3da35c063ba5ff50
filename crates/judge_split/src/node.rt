//! The nodes of a tree of splits, and what a search answers.

use model_timing::Timing;

/// A node of a tree of splits: in its part of the box each choice of delays meets the obligation;
/// nothing is shown; or the part is split, at `mid` of a parameter.
#[derive(Clone, Copy)]
pub enum Node {
    Yes,
    Undecided,
    /// The first tree stands for the numbers up to `mid`, the second for those from `mid + 1` on.
    Split { param: u32, mid: u32 },
}

/// A tree, its nodes in preorder; or a timing that fails the obligation, without steps.
#[derive(Drop)]
pub enum Outcome {
    Tree(Vec<Node>),
    Fails(Timing),
}
