//! What a line means: the trees of each scheme, their values at a tick, and the histories of every
//! choice of delays.
//!
//! The definitions stand in `specs/`: trees (`Tree`, `Logic` over `Elements`, `Received`, `Permissive`
//! and `Unblocking`), their values (`Mean`, `PairMean`), choices and boxes (`Choice`, `Boxes`), histories
//! and interval histories (`Histories`), and the rule of an obligation (`Rule`).
//!
//! - `elements`, `time`, `times`, `join`: what code and trees share.
//! - `laws`, `interval_laws`: what every choice of delays, every box and every claim keeps.
#![tactic(auto)]

mod elements;
pub mod interval_laws;
mod join;
pub mod laws;
mod time;
mod times;

pub use elements::{is_terminal_guarded, is_terminal_weak, pickup_and_dropout};
pub use join::Join;
pub use time::Time;
pub use times::{channel_time, channel_to, terminal_time, time_of};
