//! Why a record file is refused.

/// Why a record file is refused. The number is that of the record; the header is record 1.
#[derive(Clone, Copy, Drop)]
pub enum SeenFault {
    /// The first record isn't `script,tick,terminal,signal,level`.
    Header,
    /// The record has not five fields.
    Fields(u32),
    /// No script has the name, or a head before this one has it.
    BadName(u32),
    /// A row has no head before it, or another name than the latest head.
    Order(u32),
    /// The place is no terminal's key or trip.
    BadPlace(u32),
    /// The tick is not below the horizon.
    Ticks(u32),
    /// The row doesn't come after the row before it.
    Later(u32),
    /// The level is neither `0` nor `1`, or the signal has it already.
    Level(u32),
    /// No record follows the header.
    Empty,
}

impl SeenFault {
    ghost use Rattle.std.specs.Prelude.{◌≡◌};
    ghost use Rattle.judge_match.specs.matching.Faults.{fault_name, fault_record};

    /// The fault's printed name.
    pub fn name(&self) -> &'static str
        ensures { result.now ≡ fault_name self.now }
    {
        match self {
            SeenFault::Header => "Header",
            SeenFault::Fields(_) => "Fields",
            SeenFault::BadPlace(_) => "Place",
            SeenFault::Ticks(_) => "Ticks",
            SeenFault::Order(_) => "Order",
            SeenFault::BadName(_) => "Name",
            SeenFault::Later(_) => "Later",
            SeenFault::Level(_) => "Level",
            SeenFault::Empty => "Empty",
        }
    }

    /// The number of the record at fault, where it is one record.
    pub fn record(&self) -> Option<u32>
        ensures { result ≡ fault_record self.now }
    {
        match self {
            SeenFault::Fields(n)
            | SeenFault::BadPlace(n)
            | SeenFault::Ticks(n)
            | SeenFault::Order(n)
            | SeenFault::BadName(n)
            | SeenFault::Later(n)
            | SeenFault::Level(n) => Some(*n),
            SeenFault::Header | SeenFault::Empty => None,
        }
    }
}
