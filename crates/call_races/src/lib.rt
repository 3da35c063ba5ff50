//! The table of races: the time that each external fault has to spare at each terminal, as what ends
//! and what begins; or for how long a trip may be set.
#![tactic(auto)]

mod began;
mod fault;
mod faults;
mod longest;
mod races;
mod rows;
mod terminal;
mod words;

pub use fault::Fault;
pub use races::races_table;
