//! The rows of a play: one for each change of a terminal's key or trip.

mod play;
mod rows;
mod standing;

pub use play::play_rows;
pub use rows::level_word;
