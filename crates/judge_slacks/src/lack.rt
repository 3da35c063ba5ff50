//! What an end lacks.

use judge_report::Lost;

/// The least move of an end inward, in ticks, with which an obligation is held; none where no move
/// holds it.
#[derive(Clone, Copy)]
pub struct Need {
    pub of: Lost,
    pub by: Option<u32>,
}

/// The furthest of such moves, in ticks, and the first obligation that needs it.
#[derive(Clone, Copy)]
pub struct Short {
    pub by: u32,
    pub of: Lost,
}

/// By how much an end has to be moved inward so that each obligation is held that some move holds,
/// and those that none does, in their order.
#[derive(Drop)]
pub struct Lack {
    pub short: Option<Short>,
    pub left: Vec<Lost>,
}
