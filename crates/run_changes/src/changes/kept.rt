//! What a run from change to change keeps from one tick to the next.

use crate::changes::gates::Gates;
use crate::changes::shown_by::ShownBy;
use run_signal::{Signal, Track};
use run_step::Delays;

/// The gates, the spans of a script that each of them shows, the delay of each channel, and the keys
/// and trips so far.
#[derive(Drop)]
pub struct Kept<C, V: Signal, P: Copy> {
    pub gates: Gates<C, V, P>,
    pub shown: ShownBy,
    pub delays: Delays<P>,
    pub keys: Vec<Track<V>>,
    pub trips: Vec<Track<V>>,
}
