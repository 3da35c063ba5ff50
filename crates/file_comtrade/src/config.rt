//! What a configuration says.

/// The revision of the standard that a record follows.
#[derive(Clone, Copy)]
pub enum Revision {
    Of1991,
    Of1999,
    Of2013,
}

/// What stands first in a date.
#[derive(Clone, Copy)]
pub enum DateOrder {
    DayFirst,
    MonthFirst,
}

/// How the lines of a record are to be read.
#[derive(Clone, Copy)]
pub struct Manner {
    pub revision: Revision,
    pub order: DateOrder,
}

/// What a stamp counts.
#[derive(Clone, Copy)]
pub enum StampUnit {
    Microsecond,
    Nanosecond,
}

/// How the data are written.
#[derive(Clone, Copy)]
pub enum Form {
    Ascii,
    /// Analog values of 16 bits.
    Binary,
    /// Analog values of 32 bits.
    Binary32,
    /// Analog values as floats of 32 bits.
    Float32,
}

/// Samples at one rate, up to the last of them.
#[derive(Clone, Copy)]
pub struct Rate {
    /// 0 where there is no rate, and each sample has its stamp.
    pub microhertz: u64,
    /// The number of the last sample at this rate; the first sample has number 1.
    pub last: u32,
}

/// When the samples were taken.
#[derive(Drop)]
pub struct Sampling {
    /// One after another, or a single one of 0.
    pub rates: Vec<Rate>,
    pub samples: u32,
}

/// What a configuration says of its data.
#[derive(Drop)]
pub struct Config<'a> {
    pub analog: u32,
    /// The ids of the digital channels.
    pub digital: Vec<&'a [u8]>,
    pub sampling: Sampling,
    /// The instant of the first sample, in nanoseconds from the start of the year 0.
    pub first: u128,
    pub form: Form,
    pub unit: StampUnit,
    /// A stamp counts so many billionths of its unit.
    pub factor: u64,
}
