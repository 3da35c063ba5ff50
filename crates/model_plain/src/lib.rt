//! The logic as programs of formulas, which stand for its trees: nets are compiled of them.
//!
//! - `formula` and `build` make formulas, and `parts` those that a program names; `seen_elements`,
//!   and `received` over `others`, are what a terminal sees and hears.
//! - `permissive` and `weak`, `unblocking`, `blocking`, `transfer` are the schemes, and `logic` makes
//!   the program of the line's own.
//! - `named` are the parts that have a name, for whoever looks for their gates; `role` are the names.
#![tactic(auto)]

mod blocking;
mod build;
mod formula;
mod logic;
mod named;
mod others;
mod parts;
mod permissive;
mod received;
mod role;
mod seen_elements;
mod transfer;
mod unblocking;
mod weak;

pub use formula::{Formula, Program};
pub use logic::terminal_program;
pub use named::{named_parts, receiver, sender};
pub use role::{NamedPart, Role};
