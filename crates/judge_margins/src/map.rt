//! A map of one or two settings: over each cell, the box of the line with several intervals moved
//! together, each with its width, what the interval rules say of each obligation.

mod axis;
mod cell;
mod fault;
mod grid;
mod intervals;
mod known;
mod laws;
mod ruled;
mod spans;
mod text;

pub use axis::{Axes, Axis};
pub use cell::{Cell, Word};
pub use fault::{MapFault, map_fault};
pub use grid::cells;
pub use intervals::placed;
pub use laws::{a_cell_is_of_the_placed_line, a_held_cell_is_met, what_is_placed_is_a_part};
pub use text::{map_text, obligations_text, push_obligation, word_of};
