//! What `study` tells of a line and its scripts: an answer to each obligation as a table, its trees
//! and failing timings as texts, and what a check of such trees finds; and how far each time can be
//! moved.
#![tactic(auto)]

mod laws;
mod margins;
mod recheck;
mod row;
mod rows;
mod slacks;
mod table;
mod timings;
mod told;
mod trees;

pub use laws::{
    failing_timings_are_of_one_file, rows_are_printable, what_settle_writes_is_accepted,
};
pub use margins::margins_table;
pub use recheck::recheck_settled;
pub use row::Row;
pub use rows::settle_all;
pub use timings::settle_timings;
pub use told::{fails_for_every, is_open, settle_table, status_of, table_of};
pub use trees::settle_trees;
