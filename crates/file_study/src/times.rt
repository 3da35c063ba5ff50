//! Times as a study writes them, and the words of an axis of a map.
//!
//! - A number with a unit, an interval, a tolerance or a sweep, as exact fractions of microseconds,
//!   and rounded to ticks. In `specs/times/`, `Times` says what a text means, `Rounding` and
//!   `Sweeps` what comes of it.
//! - An axis, `P=FROM..TO:STEP`: parameters of a line that move together, and the numbers of ticks
//!   from which their intervals begin. In `specs/times/`, `Names` says for which parameters the
//!   names stand, `Steps` what the numbers come to.

mod axis_fault;
mod axis_number;
mod fraction;
pub mod laws;
mod names;
mod number;
mod parts;
mod read;
mod rounding;
mod steps;
mod sweep;
mod time;
mod unit;
mod word;

pub use axis_fault::{AxisFault, Part};
pub use fraction::Fraction;
pub use names::params_of;
pub use parts::names_of;
pub use read::read_time;
pub use rounding::TickInterval;
pub use steps::{Steps, read_steps};
pub use time::{Interval, Sweep, Time};
