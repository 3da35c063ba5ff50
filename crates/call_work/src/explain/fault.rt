//! Why nothing is said.

use crate::explain::unpicked::Unpicked;
use judge_match::matching::SeenFault;

/// Why nothing is said of a record.
#[derive(Clone, Copy, Drop)]
pub enum ExplainFault {
    /// There are so many scripts, and a record file is of at most 64.
    TooManyScripts(usize),
    /// The record file is refused.
    Record(SeenFault),
    /// No record of it is the one that is asked about.
    Unpicked(Unpicked),
}
