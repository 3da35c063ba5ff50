//! The numbers that names stand for in a line and its scripts.
//!
//! - `numbers_by_name`: a terminal, channel, parameter or script by its name, the first of the name.
//! - `name_laws`: each parameter has a name of its own.
#![tactic(auto)]

pub mod name_laws;
mod numbers_by_name;

pub use numbers_by_name::{channel_of_name, parameter_of_name, script_of_name, terminal_of_name};
