//! Races: the time that an external fault has to spare at a terminal.
//!
//! What sets a trip is one or another of its conjunctions, and each asks for all of its operands
//! (`operands`). What an operand lacks at a tick is how much longer it would have to last (`lacks`); a
//! race is of the operands that lack the most where their conjunction lacks the least (`races`).
#![tactic(auto)]

mod columns;
mod lacks;
pub mod laws;
mod operands;
mod places;
mod races;
mod stretch;
mod terminal;
mod waves;

pub use lacks::column;
pub use operands::{conjunctions, input_gate, least_pickup, set_gate};
pub use places::{Terminal, all_waves, races_at};
pub use races::{Race, add_races};
pub use stretch::{Stretch, longest, offs};
pub use terminal::{column_of, trip_of};
pub use waves::history_waves;
