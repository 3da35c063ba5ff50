//! What is drawn.

/// What is known of a cell.
#[derive(Clone, Copy)]
pub enum Look {
    Held,
    Open,
    Fails,
}

/// A cell, and what it says to a pointer.
#[derive(Drop)]
pub struct GridCell {
    pub look: Look,
    pub words: Vec<u8>,
}

/// Times in microseconds, one for each column or row: so many from the first on, step by step. The
/// words say what they are of; the declared time is marked.
#[derive(Drop)]
pub struct Ruler {
    pub words: Vec<u8>,
    pub first: u64,
    pub step: u64,
    pub count: u32,
    pub declared: Option<u64>,
}

/// Cells, column by column, each from its lowest row on; without a second ruler there is one row.
#[derive(Drop)]
pub struct Grid {
    pub title: Vec<u8>,
    /// Small words below the title.
    pub note: Vec<u8>,
    pub x: Ruler,
    pub y: Option<Ruler>,
    pub cells: Vec<GridCell>,
    /// What the legend says of the mark.
    pub declared: Vec<u8>,
    /// Lines that say what is lost beyond the border of what is held.
    pub beyond: Vec<Vec<u8>>,
}
