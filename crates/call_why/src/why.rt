//! The first obligation that fails.

ghost use Rattle.std.specs.Prelude.{◌≡◌, ◌<◌, ◌+◌, ◌||◌, ◌&&◌, ◌==◌, false, IfOk, IfSome, length};
ghost use Rattle.std.specs.List.{All};
ghost use Rattle.model_line.specs.{Fits.Fits, Parameters.terminal_count};
ghost use Rattle.model_timing.specs.NamedValues.{values_of};
ghost use Rattle.judge_settle.specs.settle.Answers.{AreAnswers, IsAnswer};
ghost use Rattle.call_why.specs.Why.{IsFound, IsInScript, IsPlayable, IsReasonOf, first_failing as first_failing_of};
ghost use Rattle.call_why.specs.Why.{is_asked as is_asked_of};
ghost use Rattle.judge_settle.specs.settle.Answers.{is_failing as is_failing_of, is_open as is_open_of};
ghost use Rattle.call_why.specs.Why.{none_text, some_open as some_open_of};

use crate::reasons::{Reason, reason_of};
use judge_settle::settle::{Answer, Settled, settle};
use judge_verdict::verdict::analyse;
use model_line::{Memory, Script};
use net_gates::Compiled;
use std::alloc::Global;

/// What is found of scripts: why the first of their obligations fails that does, with the place of its
/// script; or that none does, and whether some is open.
#[derive(Drop)]
pub enum Found {
    Told { script: usize, reason: Reason },
    Quiet(bool),
}

/// The same of one script.
#[derive(Drop)]
pub(crate) enum InScript {
    Fails(Reason),
    Quiet(bool),
}

/// Why the first obligation of these scripts fails that does, each settled after at most so many
/// analyses, or the first at a terminal.
pub fn first_reason(
    alloc: Global,
    compiled: &Compiled<'_>,
    scripts: &[Script],
    terminal: Option<u32>,
    analyses: u32,
) -> Result<Found, Memory>
    requires { All (Fits compiled.now.line.now) scripts.now }
    ensures found { IfOk result (IsFound compiled.now.line.now scripts.now terminal) }
    ensures playable { IfOk result (IsPlayable compiled.now.line.now scripts.now) }
{
    let mut unsettled = false;
    for i in 0..scripts.len() {
        match look(alloc, compiled, &scripts[i], terminal, analyses)? {
            InScript::Fails(reason) => return Ok(Found::Told { script: i, reason }),
            InScript::Quiet(left) => unsettled = either(unsettled, left),
        }
    }
    Ok(Found::Quiet(unsettled))
}

fn either(one: bool, other: bool) -> bool
    ensures { result ≡ one || other }
{
    one || other
}

/// What is told where nothing fails.
pub fn quiet_words(unsettled: bool) -> &'static [u8]
    ensures { result.now ≡ none_text unsettled }
{
    if unsettled {
        b"nothing is known to fail, and something is open\n"
    } else {
        b"nothing fails\n"
    }
}

// What is found of a script.
fn look(
    alloc: Global,
    compiled: &Compiled<'_>,
    script: &Script,
    terminal: Option<u32>,
    analyses: u32,
) -> Result<InScript, Memory>
    requires { Fits compiled.now.line.now script.now }
    ensures { IfOk result (IsInScript compiled.now.line.now script.now terminal) }
{
    let waves = analyse(alloc, compiled, script)?;
    let settled = settle(alloc, compiled, script, &waves, analyses)?;
    look_at(alloc, compiled, script, terminal, settled.as_slice())
}

// The same by the answers to its obligations.
fn look_at(
    alloc: Global,
    compiled: &Compiled<'_>,
    script: &Script,
    terminal: Option<u32>,
    settled: &[Settled],
) -> Result<InScript, Memory>
    requires fits { Fits compiled.now.line.now script.now }
    requires answers { AreAnswers compiled.now.line.now script.now settled.now }
    ensures { IfOk result (IsInScript compiled.now.line.now script.now terminal) }
{
    match first_failing(terminal, settled, 0) {
        None => Ok(InScript::Quiet(some_open(terminal, settled, 0))),
        Some(k) => {
            let reason = reason_by(alloc, compiled, script, k, &settled[k as usize].answer)?;
            Ok(InScript::Fails(reason))
        }
    }
}

// Why the obligation with this answer fails.
fn reason_by(
    alloc: Global,
    compiled: &Compiled<'_>,
    script: &Script,
    k: u32,
    answer: &Answer,
) -> Result<Reason, Memory>
    requires fits { Fits compiled.now.line.now script.now }
    requires terminal { k < terminal_count compiled.now.line.now }
    requires answer { IsAnswer compiled.now.line.now script.now k answer.now }
    ensures { IfOk result (λ reason.
        IsReasonOf compiled.now.line.now script.now k answer.now (values_of reason.named)
        reason.text.items) }
{
    match answer {
        Answer::Fails { timing, every } => reason_of(alloc, compiled, script, k, timing, *every),
        Answer::Held(_) | Answer::Open(_) => Err(Memory),
    }
}

// Of the answers at the terminals from number k on, the first that is asked about and fails.
fn first_failing(terminal: Option<u32>, settled: &[Settled], k: u32) -> Option<u32>
    requires { k + length settled.now < 64 }
    ensures is { result ≡ first_failing_of terminal settled.now k }
    ensures there { IfSome result (λ i. i < k + length settled.now) }
{
    match settled {
        [] => None,
        [one, more @ ..] => {
            if is_asked(terminal, k) && is_failing(&one.answer) {
                Some(k)
            } else {
                first_failing(terminal, more, k + 1)
            }
        }
    }
}

// Whether some that is asked about is open.
fn some_open(terminal: Option<u32>, settled: &[Settled], k: u32) -> bool
    requires { k + length settled.now < 64 }
    ensures { result ≡ some_open_of terminal settled.now k }
{
    match settled {
        [] => false,
        [one, more @ ..] => {
            (is_asked(terminal, k) && is_open(&one.answer)) || some_open(terminal, more, k + 1)
        }
    }
}

fn is_asked(terminal: Option<u32>, k: u32) -> bool
    ensures { result ≡ is_asked_of terminal k }
{
    match terminal {
        None => true,
        Some(terminal) => terminal == k,
    }
}

fn is_failing(answer: &Answer) -> bool
    ensures { result ≡ is_failing_of answer.now }
{
    matches!(answer, Answer::Fails { .. })
}

fn is_open(answer: &Answer) -> bool
    ensures { result ≡ is_open_of answer.now }
{
    matches!(answer, Answer::Open(_))
}
