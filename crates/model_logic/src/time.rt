//! A time in a tree: none, or that of a parameter.

/// The pickup or the dropout of a timed element in a tree.
#[derive(Clone, Copy, PartialEq, Eq, Hash)]
pub enum Time {
    Zero,
    Param(u32),
}
