//! What is said of a fault of a file of records.

ghost use Rattle.std.specs.Prelude.{◌<◌, length};

use file_tables::script::ScriptFault;
use file_tables::timing::TimingFault;

/// What is wrong in a file of scripts, and what to write.
pub fn script_rule(fault: &ScriptFault) -> &'static str
    ensures { 0 < length result.now }
{
    match fault {
        ScriptFault::Header =>
            "this is no header of scripts; write script,item,place,from,to in the first record",
        ScriptFault::Fields(_) => "a record has five fields; write four commas",
        ScriptFault::Item(_) => {
            "there is no such item; write internal, external, z1, z2, rv, uv, cur or loss"
        }
        ScriptFault::BadPlace(_) => {
            "the line has no such place; write the name of a terminal, of a loss that of a channel, as A>B, and of a head nothing: capital and small letters differ"
        }
        ScriptFault::Ticks(_) => {
            "these ticks cannot stand here; write of a span two whole numbers within the horizon, the first below the second, and of an internal fault its deadline, below the horizon, in the field behind the place and nothing behind it"
        }
        ScriptFault::Order(_) => {
            "this record stands behind no head of its script; write the head before it, with the same name"
        }
        ScriptFault::BadName(_) => {
            "this name cannot stand here; write 1 to 16 letters A to Z, a to z, digits, `_` and `-`, and for each script a name of its own"
        }
        ScriptFault::TooMany => {
            "there are too many records; write at most 64 scripts, of at most 200 records each"
        }
        ScriptFault::Empty => "no script follows the header; write one",
    }
}

/// What is wrong in a file of timings, and what to write.
pub fn timing_rule(fault: &TimingFault) -> &'static str
    ensures { 0 < length result.now }
{
    match fault {
        TimingFault::Header => {
            "this is no header of timings; write timing,parameter,value in the first record"
        }
        TimingFault::Fields(_) => "a record has three fields; write two commas",
        TimingFault::Parameter(_) => {
            "the line has no such parameter; write the name of a time, as A.z2.pickup or A>B.delay, of a delay also a step of the run, as A>B.delay@40"
        }
        TimingFault::Value(_) => {
            "this value is outside the interval of its parameter; write a whole number of ticks within it, and nothing where no parameter stands"
        }
        TimingFault::Twice(_) => {
            "this parameter has a value in this timing already; write one for each"
        }
        TimingFault::Order(_) => {
            "this timing stands before, and others since; write its records one behind another"
        }
        TimingFault::TooMany => "there are too many timings; write at most 16",
        TimingFault::Empty => "no timing follows the header; write one",
        TimingFault::BadName(_) => {
            "this name cannot stand here; write 1 to 16 letters A to Z, a to z, digits, `_` and `-`"
        }
    }
}
