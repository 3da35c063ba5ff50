//! What is answered of the records of a file.

ghost use Rattle.std.specs.Prelude.{◌≡◌, ◌<◌, ◌||◌, length, map, slice_get, IfOk, Some};
ghost use Rattle.std.specs.List.{All};
ghost use Rattle.judge_match.specs.matching.Answer.{IsHead, IsMatchAnswer, is_impossible as impossible};
ghost use Rattle.judge_match.specs.matching.Answer.{is_unsettled as unsettled};
ghost use Rattle.judge_match.specs.{matching.Seen.AreSeen, matching.Waves.seen_values};

use crate::matching::seen::{Match, Seen};
use crate::matching::settling::settle;
use crate::matching::text::match_text;
use model_line::{Memory, Script};
use net_gates::Compiled;
use std::alloc::Global;

/// A line for each record, in file order; whether some record is impossible, and whether some is
/// neither that nor explained.
#[derive(Drop)]
pub struct MatchAnswer {
    pub impossible: bool,
    pub unsettled: bool,
    pub text: Vec<u8>,
}

/// Settles the records of a file.
pub fn match_answer(
    alloc: Global,
    compiled: &Compiled<'_>,
    scripts: &[Script],
    records: &[Seen],
) -> Result<MatchAnswer, Memory>
    requires seen { All (λ seen. AreSeen compiled.now.line.now seen) records.now }
    requires named { All (λ seen. seen.script < length scripts.now) records.now }
    ensures { IfOk result (λ said. IsMatchAnswer compiled.now.line.now scripts.now
        (map seen_values records.now) said.impossible said.unsettled said.text.items) }
{
    let mut text = Vec::new(alloc);
    let mut impossible = false;
    let mut unsettled = false;
    for seen in records {
        let head = settled_head(alloc, compiled, scripts, seen)?;
        text.extend_from_slice(&head.text)?;
        impossible = either(impossible, is_impossible(&head.settled));
        unsettled = either(unsettled, is_unsettled(&head.settled));
    }
    Ok(MatchAnswer {
        impossible,
        unsettled,
        text,
    })
}

// What is settled of a record, and its line.
#[derive(Drop)]
struct SettledHead {
    settled: Match,
    text: Vec<u8>,
}

fn settled_head(
    alloc: Global,
    compiled: &Compiled<'_>,
    scripts: &[Script],
    seen: &Seen,
) -> Result<SettledHead, Memory>
    requires seen { AreSeen compiled.now.line.now seen.now }
    requires named { seen.now.script < length scripts.now }
    ensures { IfOk result (λ head. IsHead compiled.now.line.now scripts.now (seen_values seen.now)
        (record { settled = head.settled; text = head.text.items })) }
{
    let script = script_at(scripts, seen.script);
    let settled = settle(alloc, compiled, script, seen)?;
    let text = match_text(alloc, compiled.line, script, &settled)?;
    Ok(SettledHead { settled, text })
}

fn script_at(scripts: &[Script], number: u32) -> &Script
    requires { number < length scripts.now }
    ensures { slice_get scripts.now number ≡ Some result.now }
{
    &scripts[number as usize]
}

fn either(a: bool, b: bool) -> bool
    ensures { result ≡ (a || b) }
{
    a || b
}

fn is_impossible(settled: &Match) -> bool
    ensures { result ≡ impossible settled.now }
{
    match settled {
        Match::Impossible { .. } => true,
        Match::Explained(_) | Match::Unsettled => false,
    }
}

fn is_unsettled(settled: &Match) -> bool
    ensures { result ≡ unsettled settled.now }
{
    match settled {
        Match::Unsettled => true,
        Match::Explained(_) | Match::Impossible { .. } => false,
    }
}
