//! The checker of split trees: of each tree in the text, whether the rule of its obligation is held
//! over the part of the declared box of each `yes` leaf; of each `no`, whether its numbers are
//! inside and their history fails the obligation.
//!
//! How a tree was found does not matter. Each choice of delays lies in exactly one leaf's part, so
//! a tree with `yes` leaves alone that passes speaks for every choice.

mod counts;
mod fault;
mod held;
mod laws;
mod result;
mod tree;
mod whole;

pub use cert_claims::check::Counts;
pub use counts::is_yes_tree;
pub use fault::{ResultFault, SplitFault};
pub use laws::{
    a_fault_refuses_the_split_text, a_split_text_has_one_first_fault, accepted_split_trees_are_so,
};
pub use whole::check_split;
