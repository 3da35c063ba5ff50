//! Works of `study` over the files that it is asked about: `load`, what a request is over, or why it is
//! not done; `choose`, `map` and `explain`, three of its answers.
#![tactic(auto)]

pub mod choose;
pub mod explain;
pub mod load;
pub mod map;
