//! A fault that is answered.

use judge_borders::Fault;
use net_gates::Compiled;

/// A fault whose times are not known, over a line that is played on for as long as its borders may move; the line
/// itself, over which whole times are settled, each after at most so many analyses.
#[derive(Clone, Copy)]
pub struct Uncertain<'a> {
    pub fault: Fault<'a>,
    pub exact: &'a Compiled<'a>,
    pub analyses: u32,
}
