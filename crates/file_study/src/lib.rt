//! Studies, in milliseconds.
//!
//! - `times`: times as people write them, to ticks; tolerances, and the settings of a line by name.
//! - `study`: a line and its faults in one TOML file, read to both in ticks.
//! - `sweeps`: the scripts that the faults come to.
#![tactic(auto)]

pub mod study;
pub mod sweeps;
pub mod times;
