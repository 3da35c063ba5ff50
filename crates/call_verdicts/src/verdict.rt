//! What the table of faults is made of: the verdicts of a fault at a terminal.

ghost use Rattle.std.specs.Prelude.{◌≡◌, ◌++◌, [], IfOk, OnOk};
ghost use Rattle.std.specs.List.{cons_option, count_by};
ghost use Rattle.call_verdicts.specs.Faults.{verdict_at, verdicts_at};
ghost use Rattle.call_verdicts.specs.Stretches.{is_held as verdict_is_held};
ghost use Rattle.call_verdicts.specs.Verdicts.{fails_for_every, fails_so, is_left};

use crate::finding::{Finding, Standing};
use model_line::{Kind, Memory, Script};
use std::alloc::Global;

/// What is found of a script at a terminal, with what the script asks for.
#[derive(Clone, Copy)]
pub struct Verdict {
    pub kind: Kind,
    pub deadline: u32,
    pub standing: Standing,
    pub first_must: Option<u32>,
}

/// The verdicts of findings at a terminal, in their order.
pub fn verdicts_of(
    alloc: Global,
    scripts: &[Script],
    terminal: u32,
    found: &[Finding],
) -> Result<Vec<Verdict>, Memory>
    ensures { IfOk result (λ v. v.items ≡ verdicts_at scripts.now terminal found.now) }
{
    let mut verdicts = Vec::new(alloc);
    for one in found {
        push_verdict(&mut verdicts, scripts, terminal, one)?;
    }
    Ok(verdicts)
}

// Adds that of a finding, if it is of the terminal.
fn push_verdict(
    verdicts: &mut Vec<Verdict>,
    scripts: &[Script],
    terminal: u32,
    found: &Finding,
) -> Result<(), Memory>
    ensures { OnOk result (verdicts.new.items ≡ verdicts.old.items
        ++ cons_option (verdict_at scripts.now terminal found.now) []) }
{
    if let Some(verdict) = verdict_of(scripts, terminal, found) {
        verdicts.push(verdict)?;
    }
    Ok(())
}

fn verdict_of(scripts: &[Script], terminal: u32, found: &Finding) -> Option<Verdict>
    ensures { result ≡ verdict_at scripts.now terminal found.now }
{
    if found.terminal != terminal {
        return None;
    }
    let script = scripts.get(found.script as usize)?;
    Some(Verdict {
        kind: script.kind,
        deadline: script.deadline,
        standing: found.standing,
        first_must: found.first_must,
    })
}

/// How many are held.
pub fn held_count(verdicts: &[Verdict]) -> usize
    ensures { result ≡ count_by verdict_is_held verdicts.now }
{
    let mut count = 0;
    for one in verdicts {
        if is_held(one) {
            count += 1;
        }
    }
    count
}

/// How many fail.
pub fn failing_count(verdicts: &[Verdict]) -> usize
    ensures { result ≡ count_by (λ v. fails_so v.standing) verdicts.now }
{
    let mut count = 0;
    for one in verdicts {
        if fails(one.standing) {
            count += 1;
        }
    }
    count
}

/// How many fail for every choice.
pub fn every_count(verdicts: &[Verdict]) -> usize
    ensures { result ≡ count_by (λ v. fails_for_every v.standing) verdicts.now }
{
    let mut count = 0;
    for one in verdicts {
        if fails_always(one.standing) {
            count += 1;
        }
    }
    count
}

/// How many are open.
pub fn open_count(verdicts: &[Verdict]) -> usize
    ensures { result ≡ count_by (λ v. is_left v.standing) verdicts.now }
{
    let mut count = 0;
    for one in verdicts {
        if is_open(one.standing) {
            count += 1;
        }
    }
    count
}

pub fn is_held(verdict: &Verdict) -> bool
    ensures { result ≡ verdict_is_held verdict.now }
{
    matches!(verdict.standing, Standing::Held)
}

fn fails(standing: Standing) -> bool
    ensures { result ≡ fails_so standing }
{
    matches!(standing, Standing::Fails { .. })
}

fn fails_always(standing: Standing) -> bool
    ensures { result ≡ fails_for_every standing }
{
    match standing {
        Standing::Fails { every } => every,
        Standing::Held | Standing::Open => false,
    }
}

fn is_open(standing: Standing) -> bool
    ensures { result ≡ is_left standing }
{
    matches!(standing, Standing::Open)
}
