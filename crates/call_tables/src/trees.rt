//! The text of the trees and timings by which obligations are settled.

ghost use Rattle.std.specs.Prelude.{◌≡◌, ◌≤◌, ◌<◌, ◌+◌, ◌*◌, ◌++◌, length, map, IfOk, OnOk};
ghost use Rattle.model_line.specs.Parameters.{terminal_count};
ghost use Rattle.cert_claims.specs.declared.check.counts.Counts.{Counts};
ghost use Rattle.cert_settle.specs.{Grammar.HasOneEach, Grammar.fails, Text.part_text};
ghost use Rattle.cert_settle.specs.Reading.{result_in};
ghost use Rattle.cert_settle.specs.Check.{IsAccepted};
ghost use Rattle.call_tables.specs.{Rows.AreRows, Whole.IsWhole};
ghost use Rattle.call_tables.specs.{Written.result_of, Written.results_of};
ghost use Rattle.call_tables.specs.Written.{rows_of as rows_of_script, trees_text};

use crate::laws::{rows_are_printable, what_settle_writes_is_accepted};
use crate::row::Row;
use call_answer::Study;
use cert_settle::{
    SETTLE_END, SETTLE_HEAD, TreeClaim, a_settle_text_grows_by_parts,
    a_settle_text_has_a_head_and_an_end, settle_piece,
};
use judge_settle::settle::Answer;
use model_line::{Line, Memory, Script};
use model_timing::Timing;
use std::alloc::Global;

/// The text of the trees and failing timings of these rows, script by script: what `check_settle`
/// takes.
pub fn settle_trees(alloc: Global, study: &Study, rows: &[Row]) -> Result<Vec<u8>, Memory>
    requires study { IsWhole study.now }
    requires rows { AreRows study.now.line study.now.scripts.items rows.now }
    ensures text { IfOk result (λ text. text.items
        ≡ trees_text study.now.line study.now.scripts.items rows.now) }
    // What is written is accepted.
    ensures accepted { IfOk result (λ text. (counts : Counts)
        × IsAccepted study.now.line study.now.scripts.items text.items counts) }
{
    a_settle_text_grows_by_parts();
    a_settle_text_has_a_head_and_an_end();
    rows_are_printable();
    what_settle_writes_is_accepted();
    let mut text = Vec::from_slice(alloc, SETTLE_HEAD)?;
    for s in 0..study.scripts.len() {
        let of_script = rows_of(&study.line, rows, s);
        push_part(alloc, &mut text, &study.line, &study.scripts[s], of_script)?;
    }
    text.extend_from_slice(SETTLE_END)?;
    Ok(text)
}

/// The rows of a script, in line order.
pub(crate) fn rows_of<'a>(line: &Line, rows: &'a [Row], s: usize) -> &'a [Row]
    requires few { s < 4096 }
    requires within { s * terminal_count line.now + terminal_count line.now ≤ length rows.now }
    ensures { result.now ≡ rows_of_script line.now rows.now s }
{
    let many = line.terminals.len();
    let start = s * many;
    &rows[start..start + many]
}

// Appends the part of a script with these rows.
fn push_part(
    alloc: Global,
    text: &mut Vec<u8>,
    line: &Line,
    script: &Script,
    rows: &[Row],
) -> Result<(), Memory>
    requires { HasOneEach line.now (results_of rows.now) }
    ensures { OnOk result (text.new.items
        ≡ text.old.items ++ part_text line.now script.now (results_of rows.now)) }
{
    let claims = claims_of(alloc, rows)?;
    let piece = settle_piece(alloc, line, script, claims.as_slice())?;
    text.extend_from_slice(piece.as_slice())?;
    Ok(())
}

// What the text says of these rows.
fn claims_of(alloc: Global, rows: &[Row]) -> Result<Vec<TreeClaim>, Memory>
    ensures { IfOk result (λ claims. map result_in claims.items ≡ results_of rows.now) }
{
    let mut claims = Vec::new(alloc);
    for row in rows {
        let claim = claim_of(alloc, &row.settled.answer)?;
        claims.push(claim)?;
    }
    Ok(claims)
}

// What the text says of an answer.
fn claim_of(alloc: Global, answer: &Answer) -> Result<TreeClaim, Memory>
    ensures { IfOk result (λ claim. result_in claim ≡ result_of answer.now) }
{
    match answer {
        Answer::Held(nodes) => Ok(TreeClaim::Tree(Vec::from_slice(alloc, nodes.as_slice())?)),
        Answer::Fails { timing, .. } => claim_of_timing(alloc, timing),
        Answer::Open(nodes) => Ok(TreeClaim::Tree(Vec::from_slice(alloc, nodes.as_slice())?)),
    }
}

// What the text says of a timing that fails.
fn claim_of_timing(alloc: Global, timing: &Timing) -> Result<TreeClaim, Memory>
    ensures { IfOk result (λ claim. result_in claim ≡ fails timing.now.steps timing.now.values) }
{
    let steps = Vec::from_slice(alloc, timing.steps())?;
    let values = timing.values();
    let mut numbers = Vec::new(alloc);
    for value in values {
        numbers.push(value.value())?;
    }
    Ok(TreeClaim::Fails { steps, numbers })
}
