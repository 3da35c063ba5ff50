//! What is found of each obligation: its answer, and when its trip must have come.

ghost use Rattle.std.specs.Prelude.{◌≡◌, ◌<◌, ◌*◌, ◌+◌, ℕ, Some, IfOk, OnOk, length, slice_get};
ghost use Rattle.model_line.specs.{declared.line.Line.Line, declared.script.Script.Script};
ghost use Rattle.model_line.specs.{Fits.Fits, Parameters.terminal_count};
ghost use Rattle.model_logic.specs.Choice.{declared_box};
ghost use Rattle.net_gates.specs.NetOf.{IsNetOf};
ghost use Rattle.run_step.specs.Runs.{IsTheHistory};
ghost use Rattle.judge_verdict.specs.verdict.PairWavesOf.{pair_history};
ghost use Rattle.judge_verdict.specs.verdict.OneEach.{OneEach};
ghost use Rattle.judge_settle.specs.settle.Answers.{AreAnswers, IsAnswer, IsAnswered};
ghost use Rattle.call_verdicts.specs.Cases.{IsCases};
ghost use Rattle.call_verdicts.specs.Findings.{AreFindings, IsFinding, IsStanding};
ghost use Rattle.judge_report.specs.Firsts.{IsFirstMust};

use crate::cases::Cases;
use judge_settle::settle::{Answer, By, Settled, settle};
use judge_verdict::verdict::{PairWaves, analyse};
use model_line::Memory;
use std::alloc::Global;

/// The answer to an obligation.
#[derive(Clone, Copy)]
pub enum Standing {
    /// Every choice of fractions inside the declared intervals meets it.
    Held,
    /// A timing inside, which may have steps, does not meet it. Where `every`, no choice does.
    Fails { every: bool },
    /// The interval rules leave it unknown, and each of the line's candidates meets it.
    Open,
}

/// What is found of the obligation of a script at a terminal, both by their numbers; and the first
/// tick at which every choice of delays trips there, if there is one.
#[derive(Clone, Copy)]
pub struct Finding {
    pub script: u32,
    pub terminal: u32,
    pub standing: Standing,
    pub by: By,
    pub first_must: Option<u32>,
}

/// What is found of each obligation, script by script and in each its terminals in line order. One
/// analysis of a script serves all its terminals; each obligation is settled after at most so many
/// more.
pub fn find_all(alloc: Global, cases: &Cases, analyses: u32) -> Result<Vec<Finding>, Memory>
    requires { IsCases cases.now }
    ensures { IfOk result (λ found.
        AreFindings cases.now.compiled.line.now cases.now.scripts.now found.items) }
{
    let mut found = Vec::new(alloc);
    for i in 0..cases.scripts.len() {
        push_script(alloc, cases, i, analyses, &mut found)?;
    }
    Ok(found)
}

// Adds what is found of script i.
fn push_script(
    alloc: Global,
    cases: &Cases,
    i: usize,
    analyses: u32,
    found: &mut Vec<Finding>,
) -> Result<(), Memory>
    requires cases { IsCases cases.now }
    requires exists { i < length cases.now.scripts.now }
    requires before { OneEach (IsFinding cases.now.compiled.line.now cases.now.scripts.now)
        (i * terminal_count cases.now.compiled.line.now) found.old.items }
    ensures { OnOk result (OneEach (IsFinding cases.now.compiled.line.now cases.now.scripts.now)
        (i * terminal_count cases.now.compiled.line.now + terminal_count
        cases.now.compiled.line.now)
        found.new.items) }
{
    let script = &cases.scripts[i];
    let waves = analyse(alloc, &cases.compiled, script)?;
    let settled = settle(alloc, &cases.compiled, script, &waves, analyses)?;
    push_settled(cases, &waves, i, &settled, found)
}

// Adds what is found of script i, whose history and answers these are.
fn push_settled(
    cases: &Cases,
    waves: &PairWaves,
    i: usize,
    settled: &[Settled],
    found: &mut Vec<Finding>,
) -> Result<(), Memory>
    requires cases { IsCases cases.now }
    requires exists { i < length cases.now.scripts.now }
    requires before { OneEach (IsFinding cases.now.compiled.line.now cases.now.scripts.now)
        (i * terminal_count cases.now.compiled.line.now) found.old.items }
    requires terminals { waves.now.terminals ≡ terminal_count cases.now.compiled.line.now }
    requires horizon { waves.now.horizon ≡ cases.now.compiled.line.now.horizon }
    requires history { (script : Script) → slice_get cases.now.scripts.now i ≡ Some script →
        IsTheHistory cases.now.compiled.line.now script (declared_box cases.now.compiled.line.now)
        (pair_history waves.now) }
    requires settled { (script : Script) → slice_get cases.now.scripts.now i ≡ Some script →
        AreAnswers cases.now.compiled.line.now script settled.now }
    ensures { OnOk result (OneEach (IsFinding cases.now.compiled.line.now cases.now.scripts.now)
        (i * terminal_count cases.now.compiled.line.now + terminal_count
        cases.now.compiled.line.now)
        found.new.items) }
{
    for k in 0..cases.compiled.line.terminals.len() {
        let one = find(cases, waves, i, k as u32, &settled[k]);
        found.push(one)?;
    }
    Ok(())
}

// What is found of script i at a terminal, to whose obligation this is the answer.
fn find(cases: &Cases, waves: &PairWaves, i: usize, terminal: u32, settled: &Settled) -> Finding
    requires cases { IsCases cases.now }
    requires exists { i < length cases.now.scripts.now }
    requires terminal { terminal < terminal_count cases.now.compiled.line.now }
    requires terminals { waves.now.terminals ≡ terminal_count cases.now.compiled.line.now }
    requires horizon { waves.now.horizon ≡ cases.now.compiled.line.now.horizon }
    requires history { (script : Script) → slice_get cases.now.scripts.now i ≡ Some script →
        IsTheHistory cases.now.compiled.line.now script (declared_box cases.now.compiled.line.now)
        (pair_history waves.now) }
    requires answered { (script : Script) → slice_get cases.now.scripts.now i ≡ Some script →
        IsAnswered cases.now.compiled.line.now script terminal settled.now }
    ensures { IsFinding cases.now.compiled.line.now cases.now.scripts.now
        (i * terminal_count cases.now.compiled.line.now + terminal) result }
{
    Finding {
        script: i as u32,
        terminal,
        standing: standing_of(&settled.answer),
        by: settled.by,
        first_must: waves.first_must(terminal),
    }
}

fn standing_of(answer: &Answer) -> Standing
    ensures { (line : Line) (script : Script) (k : ℕ) → IsAnswer line script k answer.now →
        IsStanding line script k result }
{
    match answer {
        Answer::Held(_) => Standing::Held,
        Answer::Fails { every, .. } => Standing::Fails { every: *every },
        Answer::Open(_) => Standing::Open,
    }
}
