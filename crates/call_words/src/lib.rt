//! The words of the program `study`: a table of commands, of which its command line is made, and what
//! the words of a call ask for, or which of them is wrong.
#![tactic(auto)]

mod build;
mod fault;
mod inputs;
mod look;
mod table;
mod words;

pub use build::BUILD;
pub use fault::WordFault;
pub use inputs::{Input, inputs_of};
pub use look::{Colors, Form, Look, is_table};
pub use table::command;
pub use words::{Call, Event, Versions, Words, words_of};
