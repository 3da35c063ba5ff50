//! Of a study whose faults come to no scripts.

ghost use Rattle.std.specs.Prelude.{IfOk};
ghost use Rattle.call_refused.specs.told.Told.{IsToldAt};

use crate::told::one_line::told;
use crate::told::study::place_of_item;
use crate::words::sweeps::push_sweep_words;
use base_memory::Memory;
use file_study::sweeps::StudySweepFault;
use std::alloc::Global;

/// The line of a study of which a fault comes to no scripts, at that fault's name.
pub fn refused_sweep(
    alloc: Global,
    name: &str,
    bytes: &[u8],
    fault: &StudySweepFault,
) -> Result<Vec<u8>, Memory>
    ensures { IfOk result (λ text. IsToldAt name.now bytes.now text.items) }
{
    let (number, own) = match fault {
        StudySweepFault::Refused(i, own, _) | StudySweepFault::Twice(i, own, _) => (*i, own),
    };
    let at = place_of_item(alloc, bytes, b"fault", number, b"name")?;
    let mut words = Vec::new(alloc);
    push_sweep_words(&mut words, fault)?;
    told(alloc, name, bytes, at, "`", &[own.bytes(), b"`: ", &words])
}
