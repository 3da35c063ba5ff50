//! Which values of a setting hold: the range of its positions over which obligations are held, and
//! what is lost one tick beyond each end of it.
#![tactic(auto)]

mod asks;
mod choose;
mod cover;
mod found;
mod known;
mod lanes;
mod laws;
mod range;
mod reach;
mod setting;
mod spans;
mod table;
mod values;

pub use choose::ranges;
pub use cover::Cover;
pub use laws::{
    a_held_cover_is_met, a_held_cover_is_met_between_ticks, every_interval_inside_a_cover_is_held,
    the_declared_position_is_the_declared_box,
};
pub use range::{Bound, Range};
pub use setting::Setting;
pub use values::{Answer, answer_at, roomy_value, value};
