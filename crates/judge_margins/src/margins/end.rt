//! What is answered of an end of an interval.

use judge_report::Lost;

/// An end of an interval: the greatest number, which may rise to 4,000, or the least, which may fall
/// to 0, that of a delay to 1.
#[derive(Clone, Copy)]
pub enum Side {
    Above,
    Below,
}

/// By how many ticks the end can be moved outward, and the first obligation that is lost one tick
/// further out. At its limit none is.
#[derive(Clone, Copy)]
pub struct End {
    pub slack: u32,
    pub lost: Option<Lost>,
}
