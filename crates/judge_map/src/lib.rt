//! What is known of each obligation over each cell of a map: by the interval rules, by the worst choice
//! where each trip of the line is one-railed, and else by a search over the line with the cell's
//! intervals.
#![tactic(auto)]

mod asked;
mod cell;
mod known;
mod laws;
mod placing;
mod rules;
mod search;
mod settled;
mod text;

pub use cell::{SettledCell, Word};
pub use known::{Known, is_held};
pub use settled::settled_cells;
pub use text::{map_text, word_of};
