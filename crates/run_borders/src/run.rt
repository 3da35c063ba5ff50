//! What a run over two scripts is over.

use model_line::Script;
use net_gates::Compiled;
use run_signal::Within;

/// A line with its net, a script of what is shown for certain and one of what perhaps, and an interval
/// for each parameter of the line.
#[derive(Clone, Copy)]
pub struct LooseRun<'a> {
    pub compiled: &'a Compiled<'a>,
    pub certain: &'a Script,
    pub perhaps: &'a Script,
    pub spans: &'a [Within],
}
