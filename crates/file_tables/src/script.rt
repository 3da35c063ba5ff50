//! Fault scripts: what each terminal sees and which channel is lost, tick by tick, as a CSV file.

mod check;
mod fault;
mod fields;
mod item;
mod laws;
mod print;
mod read;

pub use fault::ScriptFault;
pub use laws::{
    a_file_of_scripts_is_short, a_file_says_scripts_of_one_file, printed_scripts_are_read_back,
};
pub use print::print_scripts;
pub use read::read_scripts;
