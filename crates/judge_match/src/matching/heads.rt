//! A head: what was seen under one script.

use crate::matching::change::Change;

/// A script's number, its changes in file order, and the last of them.
#[derive(Drop)]
pub struct Head {
    pub script: u32,
    pub changes: Vec<Change>,
    pub latest: Option<Change>,
}
