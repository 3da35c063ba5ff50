//! Why a file of scripts is refused.

use base_records::print_fault;
use std::fmt;

/// Why a file of scripts is refused. The number is that of the record; the header is record 1.
#[derive(Clone, Copy, Drop)]
pub enum ScriptFault {
    /// The first record isn't `script,item,place,from,to`.
    Header,
    /// The record has not five fields.
    Fields(u32),
    /// The item is none of the eight.
    Item(u32),
    /// A head has a place, or the place is no terminal, or for a loss no channel.
    BadPlace(u32),
    /// A deadline or a span is not within the horizon.
    Ticks(u32),
    /// A row has no head before it, or another name than the latest head.
    Order(u32),
    /// The name isn't plain, or a head before this one has it.
    BadName(u32),
    /// A 65th head, or a 201st row after one head.
    TooMany,
    /// No record follows the header.
    Empty,
}

impl ScriptFault {
    ghost use Rattle.std.specs.Prelude.{◌≡◌};
    ghost use Rattle.file_tables.specs.script.Faults.{fault_name, fault_record};

    /// The fault's printed name.
    pub fn name(&self) -> &'static str
        ensures { result.now ≡ fault_name self.now }
    {
        match self {
            ScriptFault::Header => "Header",
            ScriptFault::Fields(_) => "Fields",
            ScriptFault::Item(_) => "Item",
            ScriptFault::BadPlace(_) => "Place",
            ScriptFault::Ticks(_) => "Ticks",
            ScriptFault::Order(_) => "Order",
            ScriptFault::BadName(_) => "Name",
            ScriptFault::TooMany => "TooMany",
            ScriptFault::Empty => "Empty",
        }
    }

    /// The number of the record at fault, where it is one record.
    pub fn record(&self) -> Option<u32>
        ensures { result ≡ fault_record self.now }
    {
        match self {
            ScriptFault::Fields(n)
            | ScriptFault::Item(n)
            | ScriptFault::BadPlace(n)
            | ScriptFault::Ticks(n)
            | ScriptFault::Order(n)
            | ScriptFault::BadName(n) => Some(*n),
            ScriptFault::Header | ScriptFault::TooMany | ScriptFault::Empty => None,
        }
    }
}

impl fmt::Display for ScriptFault {
    fn fmt<W: fmt::Write>(&self, f: &mut fmt::Formatter<W>) -> fmt::Result {
        print_fault(f, self.name(), self.record())
    }
}
