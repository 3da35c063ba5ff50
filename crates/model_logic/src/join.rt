//! How what several terminals send is joined.

/// What joins two trees.
#[derive(Clone, Copy)]
pub enum Join {
    And,
    Or,
}
