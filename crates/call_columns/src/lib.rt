//! Tables for the eye: a CSV text as columns, with what it comes to.
#![tactic(auto)]

mod answers;
mod column;
mod line;
mod rows;
mod table;
mod tone;

pub use answers::place_named;
pub use column::field_of;
pub use rows::all_rows;
pub use table::as_columns;
