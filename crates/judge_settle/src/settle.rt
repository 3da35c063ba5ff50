//! An answer to each obligation, where the interval rules alone leave it open: a tree of parts and
//! cases over which it is shown, or a timing that fails it.

mod answer;
mod boxes;
mod budget;
mod every;
mod grown;
mod leaves;
mod play;
mod search;
mod settling;
mod sides;

pub use answer::{Answer, By, Settled, by_word, choices_word};
pub use settling::settle;
