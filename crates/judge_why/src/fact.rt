//! What is so of a gate at a tick.

/// A gate, by its number, at a tick.
#[derive(Clone, Copy)]
pub struct Spot {
    pub gate: u32,
    pub tick: u32,
}

/// At this tick the gate has this level. It has it at each tick from `from` on to the one before `to`,
/// and at neither tick beside these. `depth` counts the facts that are told and rest on this one, one
/// on another.
#[derive(Clone, Copy)]
pub struct Fact {
    pub gate: u32,
    pub tick: u32,
    pub level: bool,
    pub from: u32,
    pub to: u32,
    pub depth: u32,
}
