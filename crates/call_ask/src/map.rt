//! What a map is asked for.

/// As a drawing (SVG), or as records (CSV).
#[derive(Clone, Copy)]
pub enum MapForm {
    Drawing,
    Records,
}

/// The words of the axis of the columns, and those of the rows, if there are any: `P=FROM..TO:STEP`;
/// how many analyses each obligation of a cell takes at most that the rules leave open; and what a
/// drawing says made it.
#[derive(Clone, Copy)]
pub struct MapAsk<'a> {
    pub x: &'a [u8],
    pub y: Option<&'a [u8]>,
    pub form: MapForm,
    pub analyses: u32,
    pub made: &'a [u8],
}
