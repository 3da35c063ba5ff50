//! A recorder of a map.

ghost use Rattle.std.specs.Prelude.{◌<◌, ◌≤◌, ◌^◌, length};

use crate::map::source::Signals;
use file_comtrade::DateOrder;

/// A recorder at a terminal.
#[derive(Drop)]
pub struct Recorder {
    /// By its place in the line.
    pub terminal: u32,
    /// The name of its configuration, which ends in `.cfg`, or of its record in one file, which ends in
    /// `.cff`.
    pub config: Vec<u8>,
    /// The order in its dates, where it is not that of its revision.
    pub dates: Option<DateOrder>,
    /// The instant of tick 0 in its clock, in nanoseconds from the start of the year 0.
    pub start: u128,
    /// The signals that it tells.
    pub signals: Signals,
    pub ghost early: { start < 2 ^ 100 },
    pub ghost named: { 4 ≤ length config.items },
}
