//! The command `split`: the parts of the declared box in which each obligation is decided.
ghost use Rattle.std.specs.Prelude.{◌≡◌, ◌≤◌, IfOk, map};
ghost use Rattle.std.specs.List.{list_any};
ghost use Rattle.model_line.specs.{Fits.Fits, Parameters.terminal_count};
ghost use Rattle.judge_verdict.specs.verdict.OneEach.{OneEach};
ghost use Rattle.judge_split.specs.Found.{IsFound};
ghost use Rattle.cert_split.specs.text.Piece.{ArePrintable, written_as};
ghost use Rattle.cert_split.specs.check.Counts.{verdict_of};
ghost use Rattle.call_pilot.specs.commands.Split.{HasSplits, split_answer, comes_to_no, is_left_open};
ghost use Rattle.call_pilot.specs.commands.Verdicts.{IsFoundOf};
ghost use Rattle.call_answer.specs.{Answers.Says, Study.IsStudy};

use crate::commands::found::{Found, NOTHING};
use call_answer::{Said, Study};
use cert_own::what_is_searched_grows_by_parts;
use cert_split::check::is_yes_tree;
use cert_split::text::{
    SPLIT_END, SPLIT_HEAD, a_split_text_grows_by_parts, a_split_text_has_a_head_and_an_end,
    split_piece, what_a_search_finds_can_be_written,
};
use judge_split::{Outcome, search};
use model_line::{Memory, Script};
use net_gates::Compiled;
use std::alloc::Global;

/// The split trees of all obligations, at most `depth` splits above one another.
pub fn split(alloc: Global, study: &Study, depth: u32) -> Result<Said, Memory>
    requires study { IsStudy study.now }
    requires depth { depth ≤ 8 }
    ensures { IfOk result (Says (split_answer study.now.line study.now.scripts.items depth)) }
{
    a_split_text_grows_by_parts();
    what_is_searched_grows_by_parts();
    a_split_text_has_a_head_and_an_end();
    let mut text = Vec::from_slice(alloc, SPLIT_HEAD)?;
    let mut found = NOTHING;
    let scripts = study.scripts.as_slice();
    let compiled = Compiled {
        line: &study.line,
        net: &study.net,
    };
    for script in scripts {
        let more = push_part(alloc, &mut text, &compiled, script, depth)?;
        found = found.and(more);
    }
    text.extend_from_slice(SPLIT_END)?;
    Ok(Said {
        status: found.status(),
        text,
    })
}

// Appends a script's part, and tells what was found.
fn push_part(
    alloc: Global,
    text: &mut Vec<u8>,
    compiled: &Compiled<'_>,
    script: &Script,
    depth: u32,
) -> Result<Found, Memory>
    requires fits { Fits compiled.now.line.now script.now }
    requires depth { depth ≤ 8 }
    ensures { IfOk result (HasSplits compiled.now.line.now depth script.now text.old.items
        text.new.items) }
{
    let outcomes = outcomes(alloc, compiled, script, depth)?;
    let piece = split_piece(alloc, compiled.line, script, outcomes.as_slice())?;
    text.extend_from_slice(piece.as_slice())?;
    Ok(found_of(outcomes.as_slice()))
}

// The outcome of the search for each terminal, in line order.
fn outcomes(
    alloc: Global,
    compiled: &Compiled<'_>,
    script: &Script,
    depth: u32,
) -> Result<Vec<Outcome>, Memory>
    requires fits { Fits compiled.now.line.now script.now }
    requires depth { depth ≤ 8 }
    ensures found { IfOk result (λ all.
        OneEach (λ k outcome. IsFound compiled.now.line.now script.now k depth outcome)
        (terminal_count compiled.now.line.now) all.items) }
    ensures printable { IfOk result (λ all. ArePrintable compiled.now.line.now all.items) }
{
    what_a_search_finds_can_be_written();
    let mut all = Vec::new(alloc);
    for k in 0..compiled.line.terminals.len() {
        let outcome = search(alloc, compiled, script, k as u32, depth)?;
        all.push(outcome)?;
    }
    Ok(all)
}

// What is found of the verdicts that these outcomes come to.
fn found_of(outcomes: &[Outcome]) -> Found
    ensures { IsFoundOf (map verdict_of (map written_as outcomes.now)) result }
{
    Found {
        some_no: some_no(outcomes),
        some_open: some_undecided(outcomes),
    }
}

fn some_no(outcomes: &[Outcome]) -> bool
    ensures { result ≡ list_any comes_to_no outcomes.now }
{
    outcomes.iter().any(|outcome| is_no(outcome))
}

fn some_undecided(outcomes: &[Outcome]) -> bool
    ensures { result ≡ list_any is_left_open outcomes.now }
{
    outcomes.iter().any(|outcome| is_undecided(outcome))
}

#[tactic(auto, unfolding(crate::specs::commands::Split::comes_to_no))]
fn is_no(outcome: &Outcome) -> bool
    ensures { result ≡ comes_to_no outcome.now }
{
    match outcome {
        Outcome::Tree(_) => false,
        Outcome::Fails(_) => true,
    }
}

#[tactic(auto, unfolding(crate::specs::commands::Split::is_left_open))]
fn is_undecided(outcome: &Outcome) -> bool
    ensures { result ≡ is_left_open outcome.now }
{
    match outcome {
        Outcome::Tree(nodes) => !is_yes_tree(nodes.as_slice()),
        Outcome::Fails(_) => false,
    }
}
