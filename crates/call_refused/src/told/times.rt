//! Of a study whose times are intervals, a fault of which is refused.

ghost use Rattle.std.specs.Prelude.{IfOk};
ghost use Rattle.call_refused.specs.told.Told.{IsToldAt};

use crate::places::place_of_key;
use crate::told::one_line::told;
use crate::told::study::place_of_item;
use crate::words::times::{WRITE_TIMES, push_borders_words};
use base_memory::Memory;
use file_borders::StudyBordersFault;
use std::alloc::Global;

/// The line of a study of which no stage lasts for an interval, at its first fault; or of which a fault whose times are
/// intervals is refused, at that fault's name.
pub fn refused_times(
    alloc: Global,
    name: &str,
    bytes: &[u8],
    fault: &StudyBordersFault,
) -> Result<Vec<u8>, Memory>
    ensures { IfOk result (λ text. IsToldAt name.now bytes.now text.items) }
{
    match fault {
        StudyBordersFault::NoTimes => {
            let at = place_of_key(alloc, bytes, b"fault[0]")?;
            told(
                alloc,
                name,
                bytes,
                at,
                "no stage lasts for an interval",
                &[WRITE_TIMES],
            )
        }
        StudyBordersFault::Refused(i, own, why) => {
            let at = place_of_item(alloc, bytes, b"fault", *i, b"name")?;
            let mut words = Vec::new(alloc);
            push_borders_words(&mut words, why)?;
            told(alloc, name, bytes, at, "`", &[own.bytes(), b"`: ", &words])
        }
    }
}
