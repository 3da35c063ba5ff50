//! Answers.

use crate::explain::paired::Paired;
use crate::explain::tree::PartNode;
use model_timing::Timing;

/// What is known of a record: this timing, without steps, explains it, and these are the changes of
/// both; none does, by a tree of so many parts, its nodes in preorder; or the budget was spent.
#[derive(Drop)]
pub enum Explanation {
    Explained { timing: Timing, rows: Vec<Paired> },
    Impossible { nodes: Vec<PartNode>, parts: usize },
    Open,
}
