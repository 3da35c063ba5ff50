//! Obligations of one script.

use judge_report::Lost;
use model_line::Script;
use net_gates::Compiled;

/// Obligations of the script of this number, one or more, of this line.
#[derive(Clone, Copy)]
pub struct Group<'a> {
    pub compiled: Compiled<'a>,
    pub scripts: &'a [Script],
    pub script: u32,
    pub these: &'a [Lost],
}
