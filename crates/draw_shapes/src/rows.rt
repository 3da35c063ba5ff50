//! Which rows a timing diagram has.

/// Which rows a diagram draws: those that tell of something, or all. What the script shows tells
/// where it is on at some tick, a gate of the logic where it changes or has a mark, a key and a trip
/// always.
#[derive(Clone, Copy)]
pub enum Rows {
    Changing,
    All,
}
