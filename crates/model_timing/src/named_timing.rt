//! A timing under its name.

use crate::timing::Timing;
use model_line::Name;

/// A timing under the name that a file of timings gives it.
#[derive(Drop)]
pub struct NamedTiming {
    pub name: Name,
    pub timing: Timing,
}
