//! The interval run over two scripts: what the first shows is shown for certain, and nothing is shown that
//! the second does not show.
//!
//! It goes from whole waves to whole waves: each gate of the net gets its wave over the keys that were
//! derived before, from no key at all on, until the keys are what is derived from them. A round makes the
//! keys right for one tick more at least, and in truth for all that one delay reaches. What a wave costs
//! goes with its changes.
#![tactic(auto)]

mod gate;
mod keys;
mod net_waves;
mod rule;
mod run;
mod shown;
mod waves;

pub use rule::{is_broken, is_held};
pub use run::LooseRun;
pub use waves::loose_waves;
