//! The tables that a call of `pilot` reads beside the line, as CSV files: `script`, what each terminal
//! sees; `timing`, the times of a play.
#![tactic(auto)]

pub mod script;
pub mod timing;
