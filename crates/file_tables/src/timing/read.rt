//! Reading a file of timings.

ghost use Rattle.std.specs.Prelude.{◌≤◌, ◌+◌, IfOk, IfSome, IsFalse, length, map};
ghost use Rattle.std.specs.List.{All};
ghost use Rattle.base_memory.specs.Gives.{Gives};
ghost use Rattle.model_timing.specs.NamedValues.{values_of};
ghost use Rattle.file_tables.specs.timing.SoFar.{open_of, so_far_of, TimingsSoFar};
ghost use Rattle.file_tables.specs.timing.SoFar.{with_row as with_row_of, IsFull, IsNamedIn};
ghost use Rattle.file_tables.specs.timing.Timings.{timings_of, timing_file, after_record, after_row};
ghost use Rattle.model_timing.specs.{Inside.IsTimingInside};
ghost use Rattle.file_tables.specs.{timing.Row.row_of};
ghost use Rattle.file_tables.specs.{timing.SoFarInside.IsSoFar, timing.Checks.is_given as is_given_in};

use crate::timing::check::{is_given, named, value};
use crate::timing::fault::TimingFault;
use crate::timing::fields::{Fields, fields_in};
use crate::timing::named::Named;
use crate::timing::reading::{Open, Opened, Reading, finished, nothing_read, opened_by};
use base_memory::Stopped;
use base_records::{RecordReader, has_three, read_file};
use csv::ByteRecord;
use model_line::{Line, is_plain};
use model_timing::{NamedTiming, Step};
use run_signal::Tick;
use std::alloc::Global;

/// The timings of a file, in file order, each with its steps ascending, or its first fault.
pub fn read_timings(
    alloc: Global,
    line: &Line,
    bytes: &[u8],
) -> Result<Vec<NamedTiming>, Stopped<TimingFault>>
    requires { length bytes.now ≤ 4194304 }
    ensures said { Gives (λ v. map values_of v.items) result (timings_of line.now bytes.now) }
    ensures inside { IfOk result (λ v. All (λ t. IsTimingInside line.now t.timing) v.items) }
{
    finished(read_file(alloc, &TimingReader { line }, bytes)?)
}

// Reads the timings of a line.
#[derive(Clone, Copy)]
struct TimingReader<'a> {
    line: &'a Line,
}

impl<'a> RecordReader for TimingReader<'a> {
    type Reading = Reading;

    type Fault = TimingFault;

    ghost Said = { TimingsSoFar };

    ghost said = { so_far_of };

    ghost file = { λ reader. timing_file reader.line.now };

    ghost Before = { λ reader n s. IsSoFar reader.line.now s };

    fn is_header(&self, row: &ByteRecord) -> bool {
        has_three(row, b"timing", b"parameter", b"value")
    }

    fn start(&self, alloc: Global) -> Reading {
        nothing_read(alloc)
    }

    #[tactic(auto, unfolding(crate::specs::timing::Timings::after_record))]
    fn after(
        &self,
        alloc: Global,
        reading: Reading,
        n: u32,
        row: &ByteRecord,
    ) -> Result<Reading, Stopped<TimingFault>> {
        let Some(fields) = fields_in(row) else {
            return Err(Stopped::Fault(TimingFault::Fields(n)));
        };
        if !is_plain(fields.name) {
            return Err(Stopped::Fault(TimingFault::BadName(n)));
        }
        let Opened { done, timing } = opened_by(alloc, self.line, reading, n, fields.name)?;
        let timing = with_row(self.line, timing, n, fields)?;
        Ok(Reading {
            done,
            latest: Some(timing),
        })
    }

    fn no_header(&self) -> TimingFault {
        TimingFault::Header
    }

    fn no_record(&self) -> TimingFault {
        TimingFault::Empty
    }
}

// The open timing with a row, where the row passes its checks.
#[tactic(auto, unfolding(crate::specs::timing::Timings::after_row))]
fn with_row(line: &Line, timing: Open, n: u32, fields: Fields) -> Result<Open, Stopped<TimingFault>>
    requires { IsFull line.now (open_of timing) }
    ensures { Gives open_of result (after_row line.now (open_of timing) n (row_of fields.entry)) }
{
    let Some(what) = named(line, fields.parameter) else {
        return Err(Stopped::Fault(TimingFault::Parameter(n)));
    };
    let Some(number) = value(line, what, fields.value) else {
        return Err(Stopped::Fault(TimingFault::Value(n)));
    };
    if is_given(&timing, what) {
        return Err(Stopped::Fault(TimingFault::Twice(n)));
    }
    entered(line, timing, what, Tick::new(number))
}

// The timing with what a row says.
fn entered(
    line: &Line,
    latest: Open,
    what: Named,
    number: Tick,
) -> Result<Open, Stopped<TimingFault>>
    requires full { IsFull line.now (open_of latest) }
    requires exists { IsNamedIn line.now what }
    requires once { IsFalse (is_given_in (open_of latest) what) }
    ensures { Gives open_of result (Ok (with_row_of (open_of latest) what number)) }
{
    let Open {
        name,
        mut values,
        mut steps,
        mut given,
    } = latest;
    match what {
        Named::Nothing => {}
        Named::Number(i) => {
            values[i as usize] = number;
            given.push(i)?;
        }
        Named::Step(param, from) => {
            steps.insert(Step {
                param,
                from,
                value: number,
            })?;
        }
    }
    Ok(Open {
        name,
        values,
        steps,
        given,
    })
}
