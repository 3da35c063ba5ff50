//! Settled trees: their text, and its checker.
//!
//! - The text, both ways: for each script and terminal a tree of parts and spans, or the timing at
//!   which the obligation fails; and the first line that leaves its grammar.
//! - The checker: of each tree in the text, whether its obligation is shown over the part of each
//!   `yes` leaf, a part of the declared box under what is assumed there; of each `no`, whether its
//!   timing is inside and its history fails the obligation.
//!
//! How a tree was found does not matter. Each choice of fractions lies in one of both parts of a box,
//! which share their end, and its history agrees with one of each two cases. So a tree with `yes` leaves
//! alone that passes speaks for every choice of fractions.
#![tactic(auto)]

mod branch_line;
mod check_laws;
mod claim;
mod counts;
mod ends;
mod fault;
mod known;
mod laws;
mod number;
mod piece;
mod print;
mod read;
mod read_timing;
mod read_tree;
mod result;
mod step_line;
mod timing;
mod tree;
mod whole;

pub use cert_claims::check::Counts;
pub use check_laws::{
    a_fault_refuses_the_settle_text, a_settle_text_has_one_first_fault,
    accepted_settled_trees_are_so,
};
pub use claim::TreeClaim;
pub use counts::is_yes_tree;
pub use ends::{SETTLE_END, SETTLE_HEAD, a_settle_text_has_a_head_and_an_end};
pub use fault::{ResultFault, SettleFault};
pub use laws::{
    a_settle_text_grows_by_parts, a_settle_text_has_one_meaning, a_settle_text_leaves_at_one_line,
    printed_results_are_a_settle_text, settle_results_have_one_text,
};
pub use piece::settle_piece;
pub use read::read_settle_text;
pub use whole::check_settle;
