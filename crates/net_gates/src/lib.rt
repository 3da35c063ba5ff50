//! Nets of timed gates, in which equal gates are one.
//!
//! A `Net` has its gates in order, each over earlier ones, with the gates of each terminal's key and
//! trip. A gate stands for a formula tree: its own kind over the trees of its arguments. A
//! `Compiled` is a line with its net: each key and each trip stands for the tree of the line's logic.
#![tactic(auto)]

mod compiled;
mod gate;
pub mod laws;
mod net;
mod readers;

pub use compiled::Compiled;
pub use gate::{Gate, GateId};
pub use net::Net;
