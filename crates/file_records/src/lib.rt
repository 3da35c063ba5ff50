//! Records of relays as files, in and out.
//!
//! - `map`: which channel of which recorder is which signal of a line.
//! - `tracks`: the level of each signal at each tick, and the table of the sources.
//! - `recorded`: scripts and records made of them, and a play as such a record.
#![tactic(auto)]

pub mod map;
pub mod recorded;
pub mod tracks;
