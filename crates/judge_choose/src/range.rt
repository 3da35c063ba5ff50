//! The range of a setting.

/// What is at an end of a range: no position is left; or one tick beyond it an obligation is lost,
/// and this is the first, by its place; or none is.
#[derive(Clone, Copy)]
pub enum Bound {
    Limit,
    Lost(usize),
    Open,
}

/// Positions from the first to the last, and for each obligation, script by script and in each
/// terminal by terminal, whether it is kept: held with every interval, of whatever width, from the
/// least end at the first position to the greatest end at the last one.
#[derive(Drop)]
pub struct Range {
    pub first: u32,
    pub last: u32,
    pub kept: Vec<bool>,
    pub below: Bound,
    pub above: Bound,
}
