//! The shots of all faults.

ghost use Rattle.std.specs.Prelude.{◌≡◌, ◌++◌, [], IfOk, OnOk};
ghost use Rattle.std.specs.List.{cons_option};
ghost use Rattle.model_line.specs.Parameters.{terminal_count};
ghost use Rattle.call_shots.specs.Shots.{fault_shots, shot_of as shot_among, shots_from};

use crate::place::shot_place;
use call_verdicts::{Cases, Finding, end_of, verdicts_of};
use model_line::Memory;
use std::alloc::Global;

/// The shots: for each fault and terminal what is found of the script that is played. The findings
/// of the faults stand one after another.
pub fn shots_of(alloc: Global, cases: &Cases, found: &[Finding]) -> Result<Vec<Finding>, Memory>
    ensures { IfOk result (λ shots. shots.items ≡ shots_from cases.now.compiled.line.now
        cases.now.scripts.now cases.now.groups.now found.now) }
{
    let mut shots = Vec::new(alloc);
    let mut start = 0;
    for group in cases.groups {
        let end = end_of(cases.compiled.line, group, start, found.len());
        push_fault(alloc, &mut shots, cases, &found[start..end])?;
        start = end;
    }
    Ok(shots)
}

// Adds the shots of a fault, of which these are the findings.
fn push_fault(
    alloc: Global,
    shots: &mut Vec<Finding>,
    cases: &Cases,
    found: &[Finding],
) -> Result<(), Memory>
    ensures { OnOk result (shots.new.items ≡ shots.old.items
        ++ fault_shots cases.now.compiled.line.now cases.now.scripts.now found.now
        (terminal_count cases.now.compiled.line.now)) }
{
    for k in 0..cases.compiled.line.terminals.len() {
        push_shot(alloc, shots, cases, found, k as u32)?;
    }
    Ok(())
}

// Adds that of a terminal, if there is one.
fn push_shot(
    alloc: Global,
    shots: &mut Vec<Finding>,
    cases: &Cases,
    found: &[Finding],
    terminal: u32,
) -> Result<(), Memory>
    ensures { OnOk result (shots.new.items ≡ shots.old.items
        ++ cons_option (shot_among cases.now.compiled.line.now cases.now.scripts.now found.now
        terminal) []) }
{
    if let Some(shot) = shot_of(alloc, cases, found, terminal)? {
        shots.push(shot)?;
    }
    Ok(())
}

// The finding of the script that is played at a terminal.
fn shot_of(
    alloc: Global,
    cases: &Cases,
    found: &[Finding],
    terminal: u32,
) -> Result<Option<Finding>, Memory>
    ensures { IfOk result (λ shot. shot ≡ shot_among cases.now.compiled.line.now
        cases.now.scripts.now found.now terminal) }
{
    let line = cases.compiled.line;
    let verdicts = verdicts_of(alloc, cases.scripts, terminal, found)?;
    let place = shot_place(line.horizon, verdicts.as_slice());
    let at = place
        .saturating_mul(line.terminals.len())
        .saturating_add(terminal as usize);
    match found.get(at) {
        Some(shot) => Ok(Some(*shot)),
        None => Ok(None),
    }
}
