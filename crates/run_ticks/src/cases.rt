//! Runs of a line's net under levels that are put in place of some gates' own values: every gate at
//! every tick, in each lane of a signal.

mod answer;
mod delays;
mod mask;
mod present;
mod run_net;
mod ticks;
mod walk;
mod waves;

pub use mask::{Mask, Masks};
pub use run_net::run_under;
pub use waves::UnderWaves;
