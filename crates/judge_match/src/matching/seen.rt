//! Records of the field, and what is settled of them.

use model_timing::Timing;
use run_signal::Tern;
use run_waves::waves::Runs;

/// What was seen while a script's fault took place: a key wave and a trip wave for each terminal,
/// in the order of the line.
#[derive(Drop)]
pub struct Seen {
    /// The place of the script.
    pub script: u32,
    pub keys: Vec<Runs>,
    pub trips: Vec<Runs>,
}

/// What is settled of a record: this timing gives it; no choice of delays inside the declared
/// intervals gives it, since at this place it cannot be; or neither is shown.
#[derive(Drop)]
pub enum Match {
    Explained(Timing),
    Impossible {
        terminal: u32,
        /// Whether it is the trip, or else the key.
        trip: bool,
        tick: u32,
        /// What was seen there.
        level: bool,
        /// What follows there from the keys that were seen.
        derived: Tern,
    },
    Unsettled,
}
