//! Faults whose times are not known to a tick: what the interval rules say of a part of the times, an
//! interval for each, where one border stands still; and parts that differ in one time, which share an end.
#![tactic(auto)]

mod fault;
pub mod laws;
mod middles;
mod parts;
mod ruled;
mod view;

pub use fault::{Asked, Fault, PartRule};
pub use middles::{TwoParts, halves, parted};
pub use parts::{no_rules, part_rules, rules_at, some_open};
