//! Why a fault has no script whose borders are not known.

/// What is wrong with a fault.
#[derive(Clone, Copy, Drop)]
pub enum BordersFault {
    /// A time is swept beside one that is an interval.
    Swept,
    /// More than three stages last for intervals.
    TooManyTimes,
    /// It leaves the horizon; one of so many ticks, of so many microseconds each, serves all its times.
    Horizon(u128, u32),
    /// An element comes when a stage may have ended.
    ComesLate,
    /// More than 100 begins and ends of what is seen.
    TooManyBorders,
    /// The line is played on for as many ticks as its times may move: so many, of so many microseconds each, and at
    /// most 4,000.
    PlayedLong(u32, u32),
}
