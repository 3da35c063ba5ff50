//! What is asked of an end.

/// Whether obligations are held with the end at a place, of both ends of each parameter in order,
/// moved outward by so many ticks.
#[derive(Clone, Copy)]
pub struct Ask {
    pub place: usize,
    pub by: u32,
}
