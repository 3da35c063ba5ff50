//! A map.

use crate::map::recorder::Recorder;
use model_line::{Kind, Name};

/// The script that records come to, and the recorders.
#[derive(Drop)]
pub struct Map {
    /// The script's name, a plain one.
    pub script: Name,
    pub kind: Kind,
    /// The last tick by which an internal fault is to be tripped; of an external one 0.
    pub deadline: u32,
    /// 1 to 8, in the order of the map.
    pub recorders: Vec<Recorder>,
}
