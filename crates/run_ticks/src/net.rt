//! The run of a line's net over a script tick by tick, each gate in the order of the net and the value
//! of each gate at each tick kept.

mod inputs;
mod run_net;
mod ticks;
mod walk;
mod waves;

pub use run_net::run;
pub use waves::Waves;
