//! Trees of splits as a text that can be checked: `text`, its lines both ways; `check`, what each tree
//! must satisfy.
#![tactic(auto)]

pub mod check;
pub mod text;
