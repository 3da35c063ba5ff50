//! The text of split trees, both ways: for each script and terminal a tree of splits, or the
//! numbers at which the obligation fails; and the first line that leaves its grammar.

mod claim;
mod ends;
mod known;
mod laws;
mod node_line;
mod piece;
mod print;
mod read;
mod read_tree;

pub use claim::SplitClaim;
pub use ends::{SPLIT_END, SPLIT_HEAD, a_split_text_has_a_head_and_an_end};
pub use laws::{
    a_split_text_grows_by_parts, a_split_text_has_one_meaning, a_split_text_is_short,
    a_split_text_leaves_at_one_line, printed_results_are_a_split_text, split_results_have_one_text,
    what_a_search_finds_can_be_written,
};
pub use piece::split_piece;
pub use read::read_split_text;
