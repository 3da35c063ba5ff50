//! The run of a line's net over a script from one tick at which some gate may change to the next, with
//! keys and trips kept.

mod agreeing;
mod arrivals;
mod gates;
mod hear;
mod kept;
mod look;
mod marks;
mod readers;
mod shown_by;
mod since;
mod start;
mod stretch;
mod trace;
mod tracks;

pub use agreeing::agreeing_lanes;
pub use tracks::{Tracks, run_tracks, run_tracks_until};
