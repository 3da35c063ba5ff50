//! Certificates: `text`, what is claimed of each script, as lines; `check`, what a claim must satisfy,
//! and the first that does not.
#![tactic(auto)]

pub mod check;
pub mod text;
