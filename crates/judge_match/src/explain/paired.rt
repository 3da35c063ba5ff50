//! Changes side by side.

/// A change of a terminal's key, or of its trip, to a level: the tick of the record, and that of the
/// play.
#[derive(Clone, Copy)]
pub struct Paired {
    pub terminal: u32,
    /// Whether it is the trip, or else the key.
    pub trip: bool,
    pub level: bool,
    pub recorded: u32,
    pub played: u32,
}
