//! What is asked of an obligation that is not held.

use judge_margins::margins::Side;
use model_line::Script;
use net_gates::Compiled;

/// An obligation, that of a script at a terminal, and an end of the interval of a parameter, which is
/// moved inward.
#[derive(Clone, Copy)]
pub struct Asked<'a> {
    pub compiled: Compiled<'a>,
    pub script: &'a Script,
    pub terminal: u32,
    pub param: u32,
    pub side: Side,
}

/// Moves of that end: with it moved by `near` ticks the obligation is not held, and by `far` it can be
/// moved.
#[derive(Clone, Copy)]
pub struct Gap {
    pub near: u32,
    pub far: u32,
}
