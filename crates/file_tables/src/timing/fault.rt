//! Why a file of timings is refused.

/// Why a file of timings is refused. The number is that of the record; the header is record 1.
#[derive(Clone, Copy, Drop)]
pub enum TimingFault {
    /// The first record isn't `timing,parameter,value`.
    Header,
    /// The record has not three fields.
    Fields(u32),
    /// The field is neither empty, nor a parameter, nor a delay with `@` and a tick of the run.
    Parameter(u32),
    /// The value is no number of the parameter's interval, or stands without a parameter.
    Value(u32),
    /// The parameter, or its step at that tick, stands in this timing already.
    Twice(u32),
    /// The name is that of an earlier timing that isn't the latest.
    Order(u32),
    /// A 17th timing.
    TooMany,
    /// No record follows the header.
    Empty,
    /// The name isn't plain.
    BadName(u32),
}

impl TimingFault {
    ghost use Rattle.std.specs.Prelude.{◌≡◌};
    ghost use Rattle.file_tables.specs.timing.Faults.{fault_name, fault_record};

    /// The fault's printed name.
    pub fn name(&self) -> &'static str
        ensures { result.now ≡ fault_name self.now }
    {
        match self {
            TimingFault::Header => "Header",
            TimingFault::Fields(_) => "Fields",
            TimingFault::Parameter(_) => "Parameter",
            TimingFault::Value(_) => "Value",
            TimingFault::Twice(_) => "Twice",
            TimingFault::Order(_) => "Order",
            TimingFault::TooMany => "TooMany",
            TimingFault::Empty => "Empty",
            TimingFault::BadName(_) => "Name",
        }
    }

    /// The number of the record at fault, where it is one record.
    pub fn record(&self) -> Option<u32>
        ensures { result ≡ fault_record self.now }
    {
        match self {
            TimingFault::Fields(n)
            | TimingFault::Parameter(n)
            | TimingFault::Value(n)
            | TimingFault::Twice(n)
            | TimingFault::Order(n)
            | TimingFault::BadName(n) => Some(*n),
            TimingFault::Header | TimingFault::TooMany | TimingFault::Empty => None,
        }
    }
}
