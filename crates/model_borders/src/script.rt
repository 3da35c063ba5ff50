//! A script whose borders are not known.

use model_line::{Name, What};

/// A begin or an end of what is shown: so many ticks after tick 0, and each uncertain length so many times
/// (one that stands in no sum before it is absent or 0).
#[derive(Drop)]
pub struct Border {
    pub fixed: u16,
    pub times: Vec<u8>,
}

/// A span from one border to another, by their numbers.
#[derive(Clone, Copy)]
pub struct LooseSpan {
    pub what: What,
    pub from: u32,
    pub to: u32,
}

/// A fault of which not all times are known: its borders, and what is seen and lost between them.
#[derive(Drop)]
pub struct LooseScript {
    /// A plain name.
    pub name: Name,
    pub borders: Vec<Border>,
    pub spans: Vec<LooseSpan>,
}
