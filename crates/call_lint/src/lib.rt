//! `study lint`: `warnings`, what is suspicious; `lint`, the text of it, or where and why a file is refused.
#![tactic(auto)]

pub mod lint;
pub mod warnings;
