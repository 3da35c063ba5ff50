//! What the table of verdicts is over.

use file_study::sweeps::Group;
use model_line::Script;
use net_gates::Compiled;

/// A line and its net, and scripts that fit it, as many as there are, which stand in groups one
/// after another: each group is a fault.
#[derive(Clone, Copy)]
pub struct Cases<'a> {
    pub compiled: Compiled<'a>,
    pub scripts: &'a [Script],
    pub groups: &'a [Group],
}
