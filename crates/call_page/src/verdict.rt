//! How a fault's scripts stand at each terminal.

ghost use Rattle.std.specs.Prelude.{◌≡◌, ◌≤◌, ◌<◌, ◌+◌, IfOk, length};
ghost use Rattle.model_line.specs.Parameters.{terminal_count};
ghost use Rattle.judge_verdict.specs.verdict.OneEach.{OneEach};
ghost use Rattle.call_page.specs.Facts.{AreKnown};
ghost use Rattle.call_facts.specs.{FirstTicks.place, Lists.At};
ghost use Rattle.call_page.specs.Verdicts.{IsVerdictOf, after_inception, means_of};
ghost use Rattle.call_page.specs.Verdicts.{IsSpareOfFault, own_scripts, standing_of as standing_of_answer};

use crate::known::{Known, firsts_at, row_at};
use crate::parts::Part;
use crate::spares::spares;
use crate::worst::worst;
use draw_page::{Means, Standing, Verdict};
use draw_run::diagram::inception;
use judge_report::deadline;
use judge_settle::settle::{Answer, By};
use model_line::{Memory, name_of_terminal};
use std::alloc::Global;

/// The verdicts of a part, one for each terminal in line order.
pub fn verdicts(alloc: Global, known: &Known<'_>, part: Part) -> Result<Vec<Verdict>, Memory>
    requires known { AreKnown known.now }
    requires some { 1 ≤ part.count }
    requires within { part.start + part.count ≤ length known.now.study.now.scripts.items }
    ensures { IfOk result (λ verdicts. OneEach
        (IsVerdictOf known.now.study.now.line known.now.study.now.scripts.items
        known.now.rows.now known.now.firsts.now part.start part.count)
        (terminal_count known.now.study.now.line) verdicts.items) }
{
    let spares = spares(alloc, known, part)?;
    let mut verdicts = Vec::new(alloc);
    for k in 0..known.study.line.terminals.len() {
        let verdict = verdict(alloc, known, part, k as u32, spares[k])?;
        verdicts.push(verdict)?;
    }
    Ok(verdicts)
}

// That of a terminal, at which the part has so much to spare.
fn verdict(
    alloc: Global,
    known: &Known<'_>,
    part: Part,
    terminal: u32,
    spare: Option<u32>,
) -> Result<Verdict, Memory>
    requires known { AreKnown known.now }
    requires spare { IsSpareOfFault known.now.study.now.line
        (own_scripts known.now.study.now.scripts.items part.start part.count) terminal spare }
    requires some { 1 ≤ part.count }
    requires within { part.start + part.count ≤ length known.now.study.now.scripts.items }
    requires terminal { terminal < terminal_count known.now.study.now.line }
    ensures { IfOk result (IsVerdictOf known.now.study.now.line
        known.now.study.now.scripts.items known.now.rows.now known.now.firsts.now part.start
        part.count terminal) }
{
    let standings = standings(alloc, known, part, terminal)?;
    let script = part.start + worst(known, part, terminal);
    let row = row_at(known, script, terminal);
    let firsts = firsts_at(known, script, terminal);
    let of = &known.study.scripts[script];
    let name = Vec::from_slice(alloc, name_of_terminal(&known.study.line, terminal))?;
    let began = inception(of, known.study.line.horizon);
    Ok(Verdict {
        terminal: name,
        standings,
        by: means(row.settled.by),
        deadline: after(began, deadline(of.kind, of.deadline)),
        may: after(began, firsts.may),
        must: after(began, firsts.must),
        spare,
    })
}

// A tick, counted from the inception of its fault, where there is one.
fn after(inception: Option<u32>, tick: Option<u32>) -> Option<u32>
    ensures { result ≡ after_inception inception tick }
{
    match (inception, tick) {
        (_, None) => None,
        (None, Some(tick)) => Some(tick),
        (Some(inception), Some(tick)) => Some(tick.saturating_sub(inception)),
    }
}

// How each script of a part stands at a terminal.
fn standings(
    alloc: Global,
    known: &Known<'_>,
    part: Part,
    terminal: u32,
) -> Result<Vec<Standing>, Memory>
    requires known { AreKnown known.now }
    requires within { part.start + part.count ≤ length known.now.study.now.scripts.items }
    requires terminal { terminal < terminal_count known.now.study.now.line }
    ensures { IfOk result (λ standings. OneEach
        (λ j x. At known.now.rows.now
        (place known.now.study.now.line (part.start + j) terminal)
        (λ row. x ≡ standing_of_answer row.settled.answer)) part.count standings.items) }
{
    let mut standings = Vec::new(alloc);
    for j in 0..part.count {
        let row = row_at(known, part.start + j, terminal);
        standings.push(standing_of(&row.settled.answer))?;
    }
    Ok(standings)
}

fn standing_of(answer: &Answer) -> Standing
    ensures { result ≡ standing_of_answer answer.now }
{
    match answer {
        Answer::Held(_) => Standing::Held,
        Answer::Fails { .. } => Standing::Fails,
        Answer::Open(_) => Standing::Open,
    }
}

fn means(by: By) -> Means
    ensures { result ≡ means_of by }
{
    match by {
        By::Rules => Means::Rules,
        By::Candidate => Means::Candidate,
        By::Corner => Means::Corner,
        By::Parts => Means::Parts,
        By::Cases => Means::Cases,
    }
}
