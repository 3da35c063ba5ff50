//! Why an obligation fails: the first that does, a choice of times that fails it, cut to what matters,
//! and the reason of its trip in the play of that choice, in the words of the scheme.
//!
//! - `part`, `parts`: what a gate is called; `words`: how that is written.
//! - `times`, `lines`: the choice, and what is so of the gates.
//! - `reasons`: what is told of an obligation that fails; `why`: which one that is.
#![tactic(auto)]

mod decision;
mod lines;
mod part;
mod parts;
mod reasons;
mod times;
mod why;
mod words;

pub use part::Part;
pub use reasons::{Reason, told_why};
pub use why::{Found, first_reason, quiet_words};
