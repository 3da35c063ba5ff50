//! The table with a record for each script and terminal.

ghost use Rattle.std.specs.Prelude.{◌≡◌, ◌<◌, ◌++◌, length, IfOk, OnOk};
ghost use Rattle.csv.specs.Writing.{row_text, default_writer};
ghost use Rattle.model_line.specs.Parameters.{terminal_count};
ghost use Rattle.call_verdicts.specs.Findings.{AreFindings};
ghost use Rattle.call_verdicts.specs.Records.{finding_record, header_record, verdicts_text};

use crate::cases::Cases;
use crate::fields::{answer_word, fails_for_word, number_words, told_of_trip};
use crate::finding::Finding;
use crate::told::{fault_name, number_in, swept_text};
use base_records::push_record;
use file_study::sweeps::place_of_script;
use itoa::Buffer;
use judge_settle::settle::by_word;
use model_line::{Memory, kind_word};
use std::alloc::Global;

/// The table: a header, and a record for each finding.
pub fn table_text(alloc: Global, cases: &Cases, found: &[Finding]) -> Result<Vec<u8>, Memory>
    requires { AreFindings cases.now.compiled.line.now cases.now.scripts.now found.now }
    ensures { IfOk result (λ text. text.items
        ≡ verdicts_text cases.now.compiled.line.now cases.now.scripts.now cases.now.groups.now
        found.now) }
{
    let mut text = Vec::new(alloc);
    push_header(alloc, &mut text)?;
    for one in found {
        push_finding(alloc, &mut text, cases, one)?;
    }
    Ok(text)
}

fn push_header(alloc: Global, text: &mut Vec<u8>) -> Result<(), Memory>
    ensures { OnOk result (text.new.items
        ≡ text.old.items ++ row_text default_writer header_record) }
{
    push_record(
        alloc,
        text,
        &[
            b"fault",
            b"place",
            b"script",
            b"terminal",
            b"kind",
            b"answer",
            b"fails_for",
            b"by",
            b"swept_ms",
            b"trip_ms",
            b"margin_ms",
        ],
    )
}

// Appends the record of a finding.
#[tactic(auto, unfolding(crate::specs::Records::finding_record))]
fn push_finding<'a>(
    alloc: Global,
    text: &mut Vec<u8>,
    cases: &Cases<'a>,
    found: &Finding,
) -> Result<(), Memory>
    requires script { found.now.script < length cases.now.scripts.now }
    requires terminal { found.now.terminal < terminal_count cases.now.compiled.line.now }
    ensures { OnOk result (text.new.items ≡ text.old.items ++ row_text default_writer
        (finding_record cases.now.compiled.line.now cases.now.scripts.now cases.now.groups.now
        found.now)) }
{
    let tick_us = cases.compiled.line.tick_us;
    let script = &cases.scripts[found.script as usize];
    let (name, kind, deadline) = (script.name, script.kind, script.deadline);
    let terminal = cases.compiled.line.terminals[found.terminal as usize].name;
    let place = place_of_script(cases.groups, found.script as usize);
    let mut digits = Buffer::new();
    let swept = swept_text(alloc, tick_us, place)?;
    let told = told_of_trip(alloc, tick_us, kind, deadline, found.first_must)?;
    let fault: &'a [u8] = fault_name(place);
    let kind_said: &'a [u8] = kind_word(kind);
    let answer: &'a [u8] = answer_word(found.standing);
    let fails_for: &'a [u8] = fails_for_word(found.standing);
    let by: &'a [u8] = by_word(found.by);
    push_record(
        alloc,
        text,
        &[
            fault,
            number_words(&mut digits, number_in(place)),
            name.bytes(),
            terminal.bytes(),
            kind_said,
            answer,
            fails_for,
            by,
            swept.as_slice(),
            told.trip.as_slice(),
            told.margin.as_slice(),
        ],
    )
}
