//! What the interval rules say: `verdict`, of a script over the declared box; `boxes`, of many boxes side by
//! side.
#![tactic(auto)]

pub mod boxes;
pub mod verdict;
