//! What a test set plays: of each fault at each terminal the script that tells most, with the
//! intervals in which each relay may key and trip, and must have; and the states that it shows.
//!
//! - `place`, `shots`: which script of a fault is played; `window`: when a relay keys and trips.
//! - `rows`, `table`: what is expected of each relay; `changes`, `states`: what each relay sees;
//!   `choice`, `delays`: at which choice of times, and what the channels' delays are there.
#![tactic(auto)]

mod changes;
mod choice;
mod delays;
mod laws;
mod place;
mod rows;
mod said;
mod shots;
mod states;
mod table;
mod window;

pub use laws::windows_are_true;
pub use rows::Row;
pub use said::shots_table;
pub use window::Window;
