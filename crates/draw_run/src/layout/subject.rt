//! What a diagram is of.

use model_line::Name;

/// What a diagram is of: a play of one timing, or every choice of delays.
#[derive(Clone, Copy)]
pub enum Subject {
    Play(Name),
    EveryChoice,
}
