//! Reading a record file.

ghost use Rattle.std.specs.Prelude.{◌≡◌, ◌≤◌, IfOk, length, map};
ghost use Rattle.std.specs.List.{All};
ghost use Rattle.base_memory.specs.Gives.{Gives};
ghost use Rattle.base_records.specs.SoFar.{SoFar, all_of, so_far_of};
ghost use Rattle.judge_match.specs.matching.Heads.{AllHeadsNamed, HeadValues, IsNamed, values_of};
ghost use Rattle.judge_match.specs.matching.Heads.{with_head as with_head_of};
ghost use Rattle.judge_match.specs.matching.Records.{heads_of, seen_file, after_record, after_row};
ghost use Rattle.judge_match.specs.matching.Row.{row_of};

use crate::matching::change::Change;
use crate::matching::check::{is_head, is_later, level, place, script_number, tick};
use crate::matching::fault::SeenFault;
use crate::matching::fields::{Fields, fields_in};
use crate::matching::heads::Head;
use base_memory::{Memory, Stopped};
use base_records::{Reading, RecordReader, has_five, read_file};
use csv::ByteRecord;
use model_line::{Line, Script};
use std::alloc::Global;

/// The heads of a record file, in file order, or its first fault.
pub fn read_heads(
    alloc: Global,
    line: &Line,
    scripts: &[Script],
    bytes: &[u8],
) -> Result<Vec<Head>, Stopped<SeenFault>>
    requires few { length scripts.now ≤ 64 }
    requires short { length bytes.now ≤ 1048576 }
    ensures said { Gives (λ v. map values_of v.items) result
        (heads_of line.now scripts.now bytes.now) }
    ensures named { IfOk result (λ v. All (IsNamed (length scripts.now)) (map values_of v.items)) }
{
    let reading = read_file(alloc, &SeenReader { line, scripts }, bytes)?;
    Ok(finished(reading)?)
}

// Reads what was seen under the scripts of a line.
#[derive(Clone, Copy)]
struct SeenReader<'a> {
    line: &'a Line,
    scripts: &'a [Script],
}

impl<'a> RecordReader for SeenReader<'a> {
    type Reading = Reading<Head>;

    type Fault = SeenFault;

    ghost Said = { SoFar HeadValues };

    ghost said = { so_far_of values_of };

    ghost file = { λ reader. seen_file reader.line.now reader.scripts.now };

    ghost Before = { λ reader n s. (length reader.scripts.now ≤ 64)
        × AllHeadsNamed (length reader.scripts.now) s };

    fn is_header(&self, row: &ByteRecord) -> bool {
        has_five(row, b"script", b"tick", b"terminal", b"signal", b"level")
    }

    fn start(&self, alloc: Global) -> Reading<Head> {
        Reading::new(alloc)
    }

    #[tactic(auto, unfolding(crate::specs::matching::Records::after_record))]
    fn after(
        &self,
        alloc: Global,
        reading: Reading<Head>,
        n: u32,
        row: &ByteRecord,
    ) -> Result<Reading<Head>, Stopped<SeenFault>> {
        let Some(fields) = fields_in(row) else {
            return Err(Stopped::Fault(SeenFault::Fields(n)));
        };
        let head = is_head(fields);
        let Some(script) = script_number(&reading, self.scripts, fields, head) else {
            return Err(Stopped::Fault(SeenFault::BadName(n)));
        };
        if head {
            Ok(with_head(alloc, reading, script)?)
        } else {
            with_row(self.line, reading, n, fields, script)
        }
    }

    fn no_header(&self) -> SeenFault {
        SeenFault::Header
    }

    fn no_record(&self) -> SeenFault {
        SeenFault::Empty
    }
}

// A head opens a record that has no change yet.
fn with_head(alloc: Global, reading: Reading<Head>, script: u32) -> Result<Reading<Head>, Memory>
    ensures { IfOk result (λ more. so_far_of values_of more
        ≡ with_head_of (so_far_of values_of reading) script) }
{
    let head = Head {
        script,
        changes: Vec::new(alloc),
        latest: None,
    };
    Ok(Reading {
        done: finished(reading)?,
        latest: Some(head),
    })
}

// A row adds its change to the latest head.
#[tactic(auto, unfolding(crate::specs::matching::Records::after_row))]
fn with_row(
    line: &Line,
    reading: Reading<Head>,
    n: u32,
    fields: Fields,
    script: u32,
) -> Result<Reading<Head>, Stopped<SeenFault>>
    ensures { Gives (so_far_of values_of) result
        (after_row line.now (so_far_of values_of reading) n (row_of fields.entry) script) }
{
    let Reading { done, latest } = reading;
    let Some(mut head) = latest else {
        return Err(Stopped::Fault(SeenFault::Order(n)));
    };
    if head.script != script {
        return Err(Stopped::Fault(SeenFault::Order(n)));
    }
    let Some(place) = place(line, fields) else {
        return Err(Stopped::Fault(SeenFault::BadPlace(n)));
    };
    let Some(tick) = tick(line, fields.tick) else {
        return Err(Stopped::Fault(SeenFault::Ticks(n)));
    };
    if !is_later(&head, tick, place) {
        return Err(Stopped::Fault(SeenFault::Later(n)));
    }
    let Some(level) = level(&head, place, fields.level) else {
        return Err(Stopped::Fault(SeenFault::Level(n)));
    };
    let change = Change {
        tick,
        terminal: place.terminal,
        trip: place.trip,
        level,
    };
    head.changes.push(change)?;
    head.latest = Some(change);
    Ok(Reading {
        done,
        latest: Some(head),
    })
}

// All heads, in file order.
fn finished(reading: Reading<Head>) -> Result<Vec<Head>, Memory>
    ensures { IfOk result (λ heads. map values_of heads.items ≡ all_of (so_far_of values_of reading)) }
{
    reading.finished()
}
