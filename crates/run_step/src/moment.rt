//! What a tick is over.

use crate::delays::Delay;
use model_line::Line;
use run_signal::{Signal, Track};

/// A line, the delay of each of its channels at a tick, and what each terminal sent before it.
#[derive(Clone, Copy)]
pub struct Moment<'a, V: Signal, P: Copy> {
    pub line: &'a Line,
    pub delays: &'a [Delay<P>],
    pub sent: &'a [Track<V>],
    pub t: u32,
}
