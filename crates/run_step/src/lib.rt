//! One tick of a run of a line's net over a script: what is shown, what arrives over each channel,
//! what each gate answers, and what is sent; and for how long each of these stays.
//!
//! One step serves every signal. At `Level` it is of the history of one timing, at `Tern` of the
//! interval history over a box of timings, at `Lanes64` of the histories of 64 timings at once.
#![tactic(auto)]

mod cell;
mod delays;
mod fresh;
mod gate_answer;
pub mod laws;
mod minimum;
mod moment;
mod run;
mod send;
mod shown;
mod spans;
mod steps;
mod within;

pub use cell::{Cell, hold_timer, seal_answer, timer_answer};
pub use delays::{Delay, Delays, fresh_delays, renew_delays, set_delays};
pub use fresh::{fresh_cells, fresh_list, fresh_tracks};
pub use gate_answer::{answer, gate_stays, short_answer};
pub use minimum::lesser;
pub use moment::Moment;
pub use run::Run;
pub use send::send_all;
pub use shown::{Shown, all_stay};
pub use within::extend_within;
