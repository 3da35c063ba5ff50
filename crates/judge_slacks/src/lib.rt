//! By how much an end of an interval has to be moved inward so that obligations are held that are
//! not: what an interval lacks, beside what it has to spare.
#![tactic(auto)]

mod asked;
mod ends;
mod inward;
mod known;
mod lack;
mod laws;
mod least;
mod moves;

pub use asked::Asked;
pub use ends::{end_at, lacks};
pub use inward::ends_moved;
pub use lack::{Lack, Need, Short};
pub use laws::{an_obligation_reads_one_end, what_is_held_is_held_further_in};
pub use least::least_move;
