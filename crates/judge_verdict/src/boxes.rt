//! Sixty-four boxes of timings side by side: one run of a net gives the interval history over each,
//! and whether the rule of an obligation is held over it.

mod carried;
mod held;
mod spans;
mod terns;
mod timed;

pub use held::{held_each, held_lanes, tripped};
pub use spans::Spans64;
pub use terns::Terns64;
