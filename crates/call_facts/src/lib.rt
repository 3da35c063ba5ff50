//! What a page tells that rests on no answer of an obligation: the diagrams of a script, the first
//! ticks and the least margin of all obligations, what external faults have to spare, how far the ends of each time can be moved, the
//! numbers and steps of a choice that matter, and the digest of a text.
#![tactic(auto)]

mod drawings;
mod firsts;
mod hash;
mod least;
mod slacks;
mod spare;
mod told;

pub use drawings::{bands, play};
pub use firsts::{Firsts, find_firsts};
pub use hash::hash_of;
pub use least::least_margin;
pub use slacks::times;
pub use spare::spare_at;
pub use told::{least_times, told_steps, told_times};
