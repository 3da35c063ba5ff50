//! Choices of settings: which settings words ask for, and the table of them: for each the range of its
//! values that hold, where it stands, what is lost beyond, and what to write.
#![tactic(auto)]

mod asked;
mod choose;
mod fault;
mod known;
mod left;
mod named;
mod names;
mod own;
mod rows;
mod settings;
mod table;
mod times;

pub use choose::choices_of;
pub use fault::ChooseFault;
pub use named::Named;
pub use names::name_in_list;
