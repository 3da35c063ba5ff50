//! The calls of `pilot`.
//!
//! - `commands`: each command, over what was read.
//! - `top`: the top call, over a store of files.
//! - `once`: that words and files fix its answer.
#![tactic(auto)]

pub mod commands;
pub mod once;
pub mod top;
