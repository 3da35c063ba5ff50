//! What a record is told under.

/// The name of what moves, and the interval that is declared for it, in ticks.
#[derive(Drop)]
pub struct Named {
    pub name: Vec<u8>,
    pub least: u32,
    pub greatest: u32,
}
