//! Reads line files to lines, with the first fault of a file that is refused, and prints lines in
//! the canonical form, with times in ticks (version 1) or in microseconds (version 2).
//!
//! One reader takes the table of a line, of a line file or made of a study, and is told where its keys
//! stand (`places`).
#![tactic(auto)]

mod canonical;
mod channel;
mod draft;
mod head;
mod pairs;
mod places;
mod print;
mod read;
mod table;
mod terminal;
mod times;

pub use places::TablePlaces;
pub use print::{print_line, print_line_us};
pub use read::{line_of_table, read_line};
pub use table::put;
pub use terminal::new_name;
