//! Of a record of keys and trips that is refused.

ghost use Rattle.std.specs.Prelude.{IfOk};
ghost use Rattle.call_refused.specs.told.Told.{IsToldAt};

use crate::told::records::at_record;
use crate::words::record::record_rule;
use base_memory::Memory;
use judge_match::matching::SeenFault;
use std::alloc::Global;

/// The line of a fault of a record of keys and trips.
pub fn refused_record(
    alloc: Global,
    name: &str,
    bytes: &[u8],
    fault: &SeenFault,
) -> Result<Vec<u8>, Memory>
    ensures { IfOk result (λ text. IsToldAt name.now bytes.now text.items) }
{
    at_record(alloc, name, bytes, fault.record(), record_rule(fault))
}
