//! Timing diagrams of a run: `diagram`, what one shows, as values; `layout`, one as a drawing.
#![tactic(auto)]

pub mod diagram;
pub mod layout;
