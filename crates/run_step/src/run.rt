//! What a run is over.

use model_timing::Step;
use net_gates::Compiled;

/// What a run is over beside its script: a line with its net, a span for each parameter of the line,
/// and steps of its delays.
#[derive(Clone, Copy)]
pub struct Run<'a, P: Copy> {
    pub compiled: &'a Compiled<'a>,
    pub spans: &'a [P],
    pub steps: &'a [Step<P>],
}
