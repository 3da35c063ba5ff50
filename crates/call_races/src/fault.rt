//! A fault, with what its records are made of.

use file_study::sweeps::Group;
use model_line::Script;
use net_gates::Compiled;
use run_waves::waves::Runs;

/// A fault over a line: its scripts, and the waves of all gates over each.
#[derive(Clone, Copy)]
pub struct Fault<'a> {
    pub compiled: Compiled<'a>,
    pub group: &'a Group,
    pub scripts: &'a [Script],
    pub waves: &'a [Vec<Runs>],
}
