//! Which script of a fault does worst.

ghost use Rattle.std.specs.Prelude.{◌≡◌, ◌≤◌, ◌<◌, ◌+◌, length};
ghost use Rattle.model_line.specs.Parameters.{terminal_count};
ghost use Rattle.call_page.specs.{Facts.AreKnown, Faults.IsShown, Verdicts.IsWorst};
ghost use Rattle.call_page.specs.Verdicts.{distance as distance_of, distance_at as distance_there};
ghost use Rattle.call_page.specs.Verdicts.{distance_held as distance_of_held};

use crate::known::{Known, firsts_at, row_at};
use crate::parts::Part;
use judge_settle::settle::Answer;
use model_line::Kind;

/// The place in a part of the script that does worst at a terminal.
pub fn worst(known: &Known<'_>, part: Part, terminal: u32) -> usize
    requires known { AreKnown known.now }
    requires some { 1 ≤ part.count }
    requires within { part.start + part.count ≤ length known.now.study.now.scripts.items }
    requires terminal { terminal < terminal_count known.now.study.now.line }
    ensures { IsWorst known.now.study.now.line known.now.study.now.scripts.items
        known.now.rows.now known.now.firsts.now part.start part.count terminal result }
{
    let mut worst = 0;
    let mut least = distance_at(known, part.start, terminal);
    for j in 1..part.count {
        let distance = distance_at(known, part.start + j, terminal);
        if distance < least {
            worst = j;
            least = distance;
        }
    }
    worst
}

/// The place in a part of the script that does worst at any terminal.
pub fn shown(known: &Known<'_>, part: Part) -> usize
    requires known { AreKnown known.now }
    requires some { 1 ≤ part.count }
    requires within { part.start + part.count ≤ length known.now.study.now.scripts.items }
    ensures { IsShown known.now.study.now.line known.now.study.now.scripts.items
        known.now.rows.now known.now.firsts.now part.start part.count result }
{
    let mut shown = worst(known, part, 0);
    let mut least = distance_at(known, part.start + shown, 0);
    for k in 1..known.study.line.terminals.len() {
        let place = worst(known, part, k as u32);
        let distance = distance_at(known, part.start + place, k as u32);
        if distance < least {
            shown = place;
            least = distance;
        }
    }
    shown
}

// How far the obligation of a script at a terminal is from failing.
fn distance_at(known: &Known<'_>, script: usize, terminal: u32) -> u32
    requires known { AreKnown known.now }
    requires script { script < length known.now.study.now.scripts.items }
    requires terminal { terminal < terminal_count known.now.study.now.line }
    ensures { result ≡ distance_there known.now.study.now.line
        known.now.study.now.scripts.items known.now.rows.now known.now.firsts.now script
        terminal }
{
    let row = row_at(known, script, terminal);
    let firsts = firsts_at(known, script, terminal);
    let of = &known.study.scripts[script];
    distance(&row.settled.answer, of.kind, of.deadline, firsts.must)
}

fn distance(answer: &Answer, kind: Kind, deadline: u32, first: Option<u32>) -> u32
    requires { deadline ≤ 4000 }
    ensures { result ≡ distance_of answer.now kind deadline first }
{
    match answer {
        Answer::Fails { .. } => 0,
        Answer::Open(_) => 1,
        Answer::Held(_) => distance_held(kind, deadline, first),
    }
}

fn distance_held(kind: Kind, deadline: u32, first: Option<u32>) -> u32
    requires { deadline ≤ 4000 }
    ensures { result ≡ distance_of_held kind deadline first }
{
    match (kind, first) {
        (Kind::Internal, None) => 2,
        (Kind::Internal, Some(first)) => 2 + deadline.saturating_sub(first),
        (Kind::External, _) => 8000,
    }
}
