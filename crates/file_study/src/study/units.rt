//! The units of time of a study.

/// How many microseconds a tick has, 1 to 1,000,000, and how many hertz the system, where that is
/// said.
#[derive(Clone, Copy, Drop)]
pub struct Units {
    pub tick_us: u32,
    pub hertz: Option<u32>,
}
