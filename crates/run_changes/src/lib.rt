//! The run of a line's net from change to change: `changes`, its tracks; `rows`, what a play shows of them.
#![tactic(auto)]

pub mod changes;
pub mod rows;
