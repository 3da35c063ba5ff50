//! The sources of a map, each with the files that it is read from.

ghost use Rattle.std.specs.Prelude.{◌<◌, ◌^◌};

use crate::map::Source;
use file_comtrade::{Files, Ticks};

/// The bytes of a recorder's configuration and data.
#[derive(Clone, Copy)]
pub struct RecordBytes<'a> {
    pub config: &'a [u8],
    pub samples: &'a [u8],
}

/// A source and where it is read.
#[derive(Clone, Copy)]
pub struct Placed<'a> {
    /// The place of its recorder in the map.
    pub recorder: u32,
    pub files: Files<'a>,
    /// The line's ticks in the recorder's clock.
    pub ticks: Ticks,
    pub source: &'a Source,
    pub ghost played: { (ticks.start < 2 ^ 100) × (0 < ticks.tick) × (0 < ticks.count) },
}
