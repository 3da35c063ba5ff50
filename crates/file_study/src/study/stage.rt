//! The faults of a study and their stages, with times in ticks.

use model_line::{Kind, Name, What};

/// What a stage shows: an element that is seen, from so many ticks into the stage on, or a channel
/// that is lost. Both last to the end of the stage.
#[derive(Clone, Copy, Drop)]
pub struct Shown {
    pub what: What,
    pub after: u32,
}

/// A stage of a fault: how long it lasts, a number for each value of its sweep, or where `between` both
/// ends of an interval, for any time of which it may last; and what it shows.
#[derive(Drop)]
pub struct Stage {
    pub lasts: Vec<u32>,
    pub between: bool,
    pub shows: Vec<Shown>,
}

/// A fault with its swept times: each is a list of numbers of ticks, one for each value of its
/// sweep. `trip_within` is counted from the start; of an external fault it is 0.
#[derive(Drop)]
pub struct SweptFault {
    pub name: Name,
    pub kind: Kind,
    pub start: Vec<u32>,
    pub trip_within: Vec<u32>,
    pub stages: Vec<Stage>,
}
