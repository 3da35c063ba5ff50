//! Why the text of a time is refused.

/// The first fault of a time's text, with the byte, from 0 on, at which the word at fault begins.
/// Where a word is missing this is the text's length.
#[derive(Clone, Copy, Drop)]
pub enum TimeFault {
    /// A tolerance has nothing before it.
    NoValue(usize),
    /// No number stands where one has to.
    NoNumber(usize),
    /// A number has more than nine digits.
    TooManyDigits(usize),
    /// A number has no unit.
    NoUnit(usize),
    /// The unit is none of `us`, `ms`, `s` and `cycles`.
    UnknownUnit(usize),
    /// Cycles, and no frequency from 1 to 1,000 Hz.
    NoFrequency(usize),
    /// The second end of an interval is below the first; the place is that of the second.
    Order(usize),
    /// The step of a sweep is 0.
    NoStep(usize),
    /// Something stands behind the end of the time.
    Surplus(usize),
}
