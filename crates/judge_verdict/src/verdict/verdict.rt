//! Verdicts.

use model_timing::Timing;
use run_waves::waves::Runs;

/// What is known of an obligation, which is a script at a terminal: each choice of delays inside
/// the declared intervals meets it; it fails at this timing, which has no steps; or neither is
/// shown.
#[derive(Drop)]
pub enum Verdict {
    Yes,
    No(Timing),
    Undecided,
}

/// A script's key waves and verdicts, one of each for each terminal.
#[derive(Drop)]
pub struct ScriptVerdict {
    pub keys: Vec<Runs>,
    pub verdicts: Vec<Verdict>,
}
