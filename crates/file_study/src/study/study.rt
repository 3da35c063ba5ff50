//! A study as a value.

use crate::study::stage::SweptFault;
use crate::study::units::Units;
use model_line::Line;

/// What a study file says: a title, the units of its times, a line, and 1 to 1,000 faults of it.
#[derive(Drop)]
pub struct Study {
    pub title: String,
    pub units: Units,
    pub line: Line,
    pub faults: Vec<SweptFault>,
}
