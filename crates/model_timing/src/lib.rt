//! Timings as values: one number of ticks for each parameter of a line, and steps of the delays that
//! move within the run; those inside the declared intervals, the choices of delays that they are,
//! and the candidates that are tried first, one by one or in blocks of 64.
#![tactic(auto)]

mod blocks;
mod candidates;
mod intervals;
mod laws;
mod named_timing;
mod places;
mod step;
mod timing;

pub use blocks::{candidate_in, candidate_spans};
pub use candidates::{candidate, candidate_count};
pub use intervals::{declared_interval, inside, is_in};
pub use laws::{
    candidates_are_inside, each_choice_inside_is_a_timing, same_choices_have_the_same_histories,
    the_latest_step_counts, timings_inside_are_choices_inside,
};
pub use named_timing::NamedTiming;
pub use places::has_step;
pub use step::Step;
pub use timing::Timing;
