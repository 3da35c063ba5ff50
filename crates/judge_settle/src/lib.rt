//! An answer to each obligation where the interval rules leave it open: `corner`, the worst corner and
//! what matters of a timing that fails; `settle`, a tree of parts and cases, or such a timing.
#![tactic(auto)]

pub mod corner;
pub mod settle;
