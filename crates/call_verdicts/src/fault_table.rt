//! The table with a record for each fault and terminal.

ghost use Rattle.std.specs.Prelude.{◌≡◌, ◌<◌, ◌+◌, ◌++◌, IfOk, OnOk, min};
ghost use Rattle.csv.specs.Writing.{row_text, default_writer};
ghost use Rattle.model_line.specs.Parameters.{terminal_count};
ghost use Rattle.call_verdicts.specs.Faults.{fault_record, fault_records, faults_header};
ghost use Rattle.call_verdicts.specs.Faults.{faults_from, faults_text as text_of_faults};
ghost use Rattle.call_verdicts.specs.Faults.{findings_of};

use crate::cases::Cases;
use crate::fault_fields::{kind_of, told_at};
use crate::fields::number_words;
use crate::finding::Finding;
use crate::stretches::{places_text, values_text};
use crate::verdict::{Verdict, every_count, failing_count, held_count, open_count, verdicts_of};
use crate::worst::{number_at, worst_place};
use base_records::push_record;
use file_study::sweeps::Group;
use itoa::Buffer;
use model_line::{Line, Memory};
use std::alloc::Global;

/// The table: a header, and a record for each fault and terminal.
pub fn faults_text(alloc: Global, cases: &Cases, found: &[Finding]) -> Result<Vec<u8>, Memory>
    ensures { IfOk result (λ text. text.items
        ≡ text_of_faults cases.now.compiled.line.now cases.now.scripts.now cases.now.groups.now
        found.now) }
{
    let mut text = Vec::new(alloc);
    push_header(alloc, &mut text)?;
    push_faults(alloc, &mut text, cases, found)?;
    Ok(text)
}

fn push_header(alloc: Global, text: &mut Vec<u8>) -> Result<(), Memory>
    ensures { OnOk result (text.new.items
        ≡ text.old.items ++ row_text default_writer faults_header) }
{
    push_record(
        alloc,
        text,
        &[
            b"fault",
            b"terminal",
            b"kind",
            b"scripts",
            b"held",
            b"fails",
            b"fails_every",
            b"open",
            b"place",
            b"trip_ms",
            b"margin_ms",
            b"not_held",
            b"not_held_ms",
        ],
    )
}

// Appends the records of all faults, whose findings stand one after another.
fn push_faults(
    alloc: Global,
    text: &mut Vec<u8>,
    cases: &Cases,
    found: &[Finding],
) -> Result<(), Memory>
    ensures { OnOk result (text.new.items ≡ text.old.items
        ++ faults_from cases.now.compiled.line.now
        cases.now.scripts.now cases.now.groups.now found.now) }
{
    let mut start = 0;
    for group in cases.groups {
        let end = end_of(cases.compiled.line, group, start, found.len());
        push_fault(alloc, text, cases, group, &found[start..end])?;
        start = end;
    }
    Ok(())
}

/// Where the findings of a fault that begin at a place end, of so many.
pub fn end_of(line: &Line, group: &Group, start: usize, count: usize) -> usize
    ensures { result ≡ min (start + findings_of line.now group.now) count }
{
    let own = group.swept.len().saturating_mul(line.terminals.len());
    start.saturating_add(own).min(count)
}

// Appends the records of a fault, of which these are the findings.
fn push_fault(
    alloc: Global,
    text: &mut Vec<u8>,
    cases: &Cases,
    group: &Group,
    found: &[Finding],
) -> Result<(), Memory>
    ensures { OnOk result (text.new.items ≡ text.old.items
        ++ fault_records cases.now.compiled.line.now cases.now.scripts.now group.now found.now
        (terminal_count cases.now.compiled.line.now)) }
{
    for k in 0..cases.compiled.line.terminals.len() {
        let verdicts = verdicts_of(alloc, cases.scripts, k as u32, found)?;
        push_verdicts(
            alloc,
            text,
            cases.compiled.line,
            group,
            k,
            verdicts.as_slice(),
        )?;
    }
    Ok(())
}

// Appends the record of a fault at a terminal, of which these are the verdicts.
#[tactic(auto, unfolding(crate::specs::Faults::fault_record))]
fn push_verdicts(
    alloc: Global,
    text: &mut Vec<u8>,
    line: &Line,
    group: &Group,
    terminal: usize,
    verdicts: &[Verdict],
) -> Result<(), Memory>
    requires { terminal < terminal_count line.now }
    ensures { OnOk result (text.new.items ≡ text.old.items
        ++ row_text default_writer (fault_record line.now group.now terminal verdicts.now)) }
{
    let (fault, name) = (group.name, line.terminals[terminal].name);
    let (mut scripts, mut held) = (Buffer::new(), Buffer::new());
    let (mut failing, mut every, mut open) = (Buffer::new(), Buffer::new(), Buffer::new());
    let worst = worst_place(line.horizon, verdicts);
    let mut place = Buffer::new();
    let places = places_text(alloc, verdicts)?;
    let values = values_text(alloc, line.tick_us, group, verdicts)?;
    let told = told_at(alloc, line.tick_us, verdicts, worst)?;
    push_record(
        alloc,
        text,
        &[
            fault.bytes(),
            name.bytes(),
            kind_of(verdicts),
            scripts.format(verdicts.len()).as_bytes(),
            held.format(held_count(verdicts)).as_bytes(),
            failing.format(failing_count(verdicts)).as_bytes(),
            every.format(every_count(verdicts)).as_bytes(),
            open.format(open_count(verdicts)).as_bytes(),
            number_words(&mut place, number_at(verdicts, worst)),
            told.trip.as_slice(),
            told.margin.as_slice(),
            places.as_slice(),
            values.as_slice(),
        ],
    )
}
