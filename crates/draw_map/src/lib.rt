//! The cells of a map as a grid that is drawn: each as what is known of it, the axes in milliseconds,
//! the declared point, and which obligation is lost first beyond the border of what is held.
#![tactic(auto)]

mod beyond;
mod declared;
mod map;
mod spots;
mod walk;
mod whole;
mod words;

pub use map::Map;
pub use whole::grid_of;
