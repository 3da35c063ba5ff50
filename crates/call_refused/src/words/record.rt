//! What is said of a fault of a record of keys and trips.

ghost use Rattle.std.specs.Prelude.{◌<◌, length};

use judge_match::matching::SeenFault;

/// What is wrong in a record of keys and trips, and what to write.
pub fn record_rule(fault: &SeenFault) -> &'static str
    ensures { 0 < length result.now }
{
    match fault {
        SeenFault::Header => {
            "this is no header of a record; write script,tick,terminal,signal,level in the first record"
        }
        SeenFault::Fields(_) => "a record has five fields; write four commas",
        SeenFault::BadName(_) => {
            "no script has this name, or a head before it has; write the name of a script, and each head once"
        }
        SeenFault::Order(_) => {
            "this record stands behind no head of its script; write the head before it, with the same name"
        }
        SeenFault::BadPlace(_) => {
            "the line has no such signal; write the name of a terminal, and behind it key or trip"
        }
        SeenFault::Ticks(_) => "a tick is below the horizon; write a whole number below it",
        SeenFault::Later(_) => {
            "records ascend by tick, then by terminal as the line has them, the key before the trip; write this one before the one before it"
        }
        SeenFault::Level(_) => {
            "a level is 0 or 1, and other than the signal has already; write a change"
        }
        SeenFault::Empty => "no record follows the header; write one",
    }
}
