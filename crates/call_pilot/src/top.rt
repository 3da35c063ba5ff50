//! The top call: a command over a store of files, with its text on one sink and its fault on
//! another.

mod bench_size;
mod dispatch;
mod laws;
mod record_laws;
mod run;
mod split_depth;
mod top;
mod words;

pub use laws::{
    what_certify_prints_is_accepted, what_is_answered_is_true, what_is_met_rests_on_the_values,
    what_split_writes_is_accepted,
};
pub use top::pilot;
