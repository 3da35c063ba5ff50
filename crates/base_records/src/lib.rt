//! The records of a CSV text: a file of records read one after another, and records written.
//!
//! A file is read with no header row and records of any length. What it says is then a function of the
//! list of its records (`specs/RecordFile.antt`), whatever the reader holds of it at a time.
#![tactic(auto)]

mod fault;
mod fields;
mod read;
mod reader;
mod reading;
mod rows;
mod write;

pub use base_memory::{Memory, Stopped};
pub use fault::print_fault;
pub use fields::{
    field, five_fields, has_five, has_three, is, is_nothing, level_named, three_fields,
};
pub use read::read_file;
pub use reader::RecordReader;
pub use reading::Reading;
pub use rows::{next_row, rows_of};
pub use write::push_record;
