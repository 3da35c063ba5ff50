//! The margins of a line: how far each end of the interval of each parameter can be moved outward,
//! all else as declared, so that every obligation that is held today is held still, and what is
//! lost first beyond.

mod ask;
mod bracket;
mod end;
mod group;
mod known;
mod laws;
mod lists;
mod narrow;
mod probe;
mod rows;
mod spans;
mod text;
mod today;
mod widened;

pub use end::{End, Side};
pub use laws::{
    an_end_has_one_slack, what_is_held_further_is_held_nearer,
    what_is_held_with_an_end_moved_is_met,
};
pub use narrow::margins;
pub use text::margins_text;
pub use today::{Today, held_today};
