//! What a search finds over a cell.

ghost use Rattle.std.specs.Prelude.{◌≡◌, ◌<◌, ◌+◌, ◌*◌, Some, IfOk, OnOk, length, slice_get};
ghost use Rattle.model_line.specs.{Parameters.terminal_count};
ghost use Rattle.model_line.specs.declared.script.Script.{Script as ScriptOf};
ghost use Rattle.model_settle.specs.Schemes.{IsOneRailedBy};
ghost use Rattle.judge_settle.specs.settle.Answers.{AreAnswers};
ghost use Rattle.judge_map.specs.Asked.{AreKnownOf, HasItsBox, IsAsked, many_of};
ghost use Rattle.judge_map.specs.Answered.{known_in as known_by_answer};

use crate::asked::Asked;
use crate::known::{Known, fails, is_open};
use crate::laws::laws_below;
use judge_settle::settle::{Answer, Settled, settle};
use judge_verdict::verdict::analyse;
use model_line::laws::scripts_fit_whatever_the_intervals;
use model_line::{Line, Memory};
use net_compile::compile;
use net_gates::Compiled;
use std::alloc::Global;

/// What is known of each obligation of a cell after a search, script by script, until some obligation
/// fails, of each obligation so many analyses at most. What stands behind that stays as the rules have
/// it.
pub(crate) fn known_by_search(
    alloc: Global,
    asked: &Asked<'_>,
    other: &Line,
    ruled: &[Known],
    analyses: u32,
) -> Result<Vec<Known>, Memory>
    requires asked { IsAsked asked.now }
    requires mixed { ¬ (IsOneRailedBy asked.now.line.now.scheme asked.now.line.now) }
    requires other { HasItsBox asked.now other.now }
    requires ruled { AreKnownOf asked.now (many_of asked.now) ruled.now }
    ensures { IfOk result (λ known. AreKnownOf asked.now (many_of asked.now) known.items) }
{
    let net = compile(alloc, other)?;
    let compiled = Compiled {
        line: other,
        net: &net,
    };
    let mut known = Vec::with_capacity(alloc, ruled.len())?;
    for s in 0..asked.scripts.len() {
        push_script(alloc, asked, &compiled, ruled, s, analyses, &mut known)?;
    }
    Ok(known)
}

// Those of one script more.
fn push_script(
    alloc: Global,
    asked: &Asked<'_>,
    compiled: &Compiled<'_>,
    ruled: &[Known],
    s: usize,
    analyses: u32,
    known: &mut Vec<Known>,
) -> Result<(), Memory>
    requires asked { IsAsked asked.now }
    requires mixed { ¬ (IsOneRailedBy asked.now.line.now.scheme asked.now.line.now) }
    requires other { HasItsBox asked.now compiled.now.line.now }
    requires ruled { AreKnownOf asked.now (many_of asked.now) ruled.now }
    requires script { s < length asked.now.scripts.now }
    requires so_far { AreKnownOf asked.now (s * terminal_count asked.now.line.now) known.old.items }
    ensures { OnOk result (AreKnownOf asked.now ((s + 1) * terminal_count asked.now.line.now)
        known.new.items) }
{
    let many = asked.line.terminals.len();
    let own = &ruled[s * many..(s + 1) * many];
    if some_fails(known.as_slice()) || !some_open(own) {
        return push_ruled(asked, ruled, s, known);
    }
    scripts_fit_whatever_the_intervals();
    let script = &asked.scripts[s];
    let waves = analyse(alloc, compiled, script)?;
    let settled = settle(alloc, compiled, script, &waves, analyses)?;
    push_settled(asked, compiled.line, s, settled.as_slice(), known)
}

// As the rules have it.
fn push_ruled(
    asked: &Asked<'_>,
    ruled: &[Known],
    s: usize,
    known: &mut Vec<Known>,
) -> Result<(), Memory>
    requires ruled { AreKnownOf asked.now (many_of asked.now) ruled.now }
    requires script { s < length asked.now.scripts.now }
    requires so_far { AreKnownOf asked.now (s * terminal_count asked.now.line.now) known.old.items }
    ensures { OnOk result (AreKnownOf asked.now ((s + 1) * terminal_count asked.now.line.now)
        known.new.items) }
{
    let many = asked.line.terminals.len();
    for k in 0..many {
        known.push(ruled_at(ruled, s * many + k))?;
    }
    Ok(())
}

fn ruled_at(ruled: &[Known], place: usize) -> Known
    requires { place < length ruled.now }
    ensures { slice_get ruled.now place ≡ Some result }
{
    ruled[place]
}

// As the search has it.
fn push_settled(
    asked: &Asked<'_>,
    other: &Line,
    s: usize,
    settled: &[Settled],
    known: &mut Vec<Known>,
) -> Result<(), Memory>
    requires asked { IsAsked asked.now }
    requires mixed { ¬ (IsOneRailedBy asked.now.line.now.scheme asked.now.line.now) }
    requires other { HasItsBox asked.now other.now }
    requires settled { (script : ScriptOf) → slice_get asked.now.scripts.now s ≡ Some script →
        AreAnswers other.now script settled.now }
    requires script { s < length asked.now.scripts.now }
    requires so_far { AreKnownOf asked.now (s * terminal_count asked.now.line.now) known.old.items }
    ensures { OnOk result (AreKnownOf asked.now ((s + 1) * terminal_count asked.now.line.now)
        known.new.items) }
{
    laws_below();
    let _other = other;
    for k in 0..asked.line.terminals.len() {
        known.push(known_of(&settled[k].answer))?;
    }
    Ok(())
}

// What an answer says of its obligation.
fn known_of(answer: &Answer) -> Known
    ensures { result ≡ known_by_answer answer.now }
{
    match answer {
        Answer::Held(_) => Known::Held,
        Answer::Fails { every: true, .. } => Known::FailsForEvery,
        Answer::Fails { every: false, .. } => Known::FailsForSome,
        Answer::Open(_) => Known::Open,
    }
}

/// Whether some obligation fails.
pub(crate) fn some_fails(known: &[Known]) -> bool {
    known.iter().any(|one| fails(*one))
}

/// Whether some obligation is open.
pub(crate) fn some_open(known: &[Known]) -> bool {
    known.iter().any(|one| is_open(*one))
}
