//! The timings that fail a script's obligations, as a file.

ghost use Rattle.std.specs.Prelude.{◌≡◌, ◌<◌, ◌++◌, [], length, map, IfOk, OnOk, MatchOption};
ghost use Rattle.std.specs.Prelude.{slice_get};
ghost use Rattle.std.specs.List.{All, flat_map};
ghost use Rattle.model_line.specs.declared.script.Script.{Script};
ghost use Rattle.model_line.specs.Parameters.{terminal_count};
ghost use Rattle.model_timing.specs.NamedValues.{values_of};
ghost use Rattle.call_answer.specs.Study.{IsStudy};
ghost use Rattle.call_tables.specs.{Rows.AreRows, Written.failing_of, Written.failing_timings};
ghost use Rattle.call_tables.specs.Written.{IsTimingsText};

use crate::laws::failing_timings_are_of_one_file;
use crate::row::Row;
use crate::trees::rows_of;
use call_answer::Study;
use file_tables::timing::print_timings;
use judge_settle::settle::Answer;
use model_line::{Line, Memory};
use model_timing::NamedTiming;
use std::alloc::Global;

/// The timings that fail obligations of a script, as a file of timings: one for each terminal where
/// it fails, under that terminal's name, in line order. None where no obligation of it fails.
pub fn settle_timings(
    alloc: Global,
    study: &Study,
    rows: &[Row],
    script: u32,
) -> Result<Option<Vec<u8>>, Memory>
    requires study { IsStudy study.now }
    requires rows { AreRows study.now.line study.now.scripts.items rows.now }
    requires script { script < length study.now.scripts.items }
    ensures { IfOk result (λ found. (of : Script) →
        slice_get study.now.scripts.items script ≡ Some of → MatchOption found
        (failing_timings study.now.line rows.now script ≡ [])
        (λ text. IsTimingsText study.now.line of
        (failing_timings study.now.line rows.now script) text.items)) }
{
    failing_timings_are_of_one_file();
    let of_script = rows_of(&study.line, rows, script as usize);
    let timings = failing(alloc, &study.line, of_script)?;
    if timings.is_empty() {
        return Ok(None);
    }
    let text = print_timings(alloc, &study.line, timings.as_slice())?;
    Ok(Some(text))
}

// The timings of these rows that fail, each under its terminal's name.
fn failing(alloc: Global, line: &Line, rows: &[Row]) -> Result<Vec<NamedTiming>, Memory>
    requires { All (λ row. row.terminal < terminal_count line.now) rows.now }
    ensures { IfOk result (λ timings. map values_of timings.items
        ≡ flat_map (failing_of line.now) rows.now) }
{
    let mut timings = Vec::new(alloc);
    for row in rows {
        push_failing(alloc, &mut timings, line, row)?;
    }
    Ok(timings)
}

// Adds the timing of a row, if it fails.
fn push_failing(
    alloc: Global,
    timings: &mut Vec<NamedTiming>,
    line: &Line,
    row: &Row,
) -> Result<(), Memory>
    requires { row.now.terminal < terminal_count line.now }
    ensures { OnOk result (map values_of timings.new.items
        ≡ map values_of timings.old.items ++ failing_of line.now row.now) }
{
    if let Answer::Fails { timing, .. } = &row.settled.answer {
        let name = line.terminals[row.terminal as usize].name;
        let timing = timing.copy(alloc)?;
        timings.push(NamedTiming { name, timing })?;
    }
    Ok(())
}
