//! Why a record is refused.

use crate::config::DateOrder;
use base_memory::Stopped;

/// Why a configuration is refused. Lines are counted from 1.
#[derive(Clone, Copy, Drop)]
pub enum ConfigFault {
    /// The text ends before the line.
    Absent(usize),
    /// The revision, in line 1, is none of 1991, 1999 and 2013.
    BadRevision,
    /// Line 2 has not the numbers of all, analog and digital channels.
    Counts,
    /// An analog channel has fewer than 10 fields.
    Analog(usize),
    /// A digital channel has neither 3 fields nor 5.
    Digital(usize),
    /// Not a number of rates, at most 64.
    Rates(usize),
    /// Not a rate and a last sample behind the one before.
    BadRate(usize),
    /// Not a date and a time.
    Moment(usize),
    /// Not a date, in neither order.
    Date(usize),
    /// A date only in this order, which is not the one in which it is read.
    OtherOrder { line: usize, order: DateOrder },
    /// Not a time.
    Time(usize),
    /// None of ASCII, BINARY, BINARY32 and FLOAT32.
    BadForm(usize),
    /// Not a factor of the stamps, or 0.
    Factor(usize),
}

/// Why data are refused. Samples are counted from 1.
#[derive(Clone, Copy, Drop)]
pub enum DataFault {
    /// The data end before the sample.
    Absent(usize),
    /// There are more data than the samples; the number is that of the first that is too many.
    Surplus(usize),
    /// Not as many fields as channels.
    Fields(usize),
    /// The number is not one above that of the sample before.
    Number(usize),
    /// The stamp is not a number.
    Stamp(usize),
    /// The level of a channel is neither 0 nor 1. Channels are counted from 1, digital ones alone,
    /// and fields from 0.
    Level {
        sample: usize,
        channel: usize,
        field: usize,
    },
    /// It has no stamp, and there is no rate.
    NoStamp(usize),
    /// The time is 2^64 nanoseconds or more.
    TooLate(usize),
    /// The time is before that of the sample before.
    Earlier(usize),
}

impl From<DataFault> for Stopped<DataFault> {
    ghost use Rattle.std.specs.Prelude.{◌≡◌};
    ghost use Rattle.base_memory.specs.declared.stopped.Stopped.TheVariants as stopped;

    ghost from_gives = { λ fault why. why ≡ stopped.Fault fault };

    fn from(fault: DataFault) -> Self {
        Stopped::Fault(fault)
    }
}
