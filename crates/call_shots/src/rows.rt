//! What is expected of each relay in each shot.

ghost use Rattle.std.specs.Prelude.{◌≡◌, ◌<◌, ◌*◌, ◌+◌, Some, IfOk, OnOk, length, slice_get};
ghost use Rattle.call_verdicts.specs.declared.finding.Finding.{Finding as FindingOf};
ghost use Rattle.model_line.specs.Parameters.{terminal_count};
ghost use Rattle.model_logic.specs.Choice.{declared_box};
ghost use Rattle.run_step.specs.Runs.{IsTheHistory};
ghost use Rattle.judge_verdict.specs.verdict.PairWavesOf.{pair_history};
ghost use Rattle.judge_verdict.specs.verdict.OneEach.{OneEach};
ghost use Rattle.call_shots.specs.Rows.{AreRows, IsRow};

use crate::window::{Window, window_of};
use call_verdicts::{Cases, Finding};
use judge_verdict::verdict::{PairWaves, analyse};
use model_line::{Memory, Script};
use std::alloc::Global;

/// What is expected of a relay in a shot, which has this number, from 1: when it keys and trips, where
/// what is played is the script of this finding.
#[derive(Clone, Copy)]
pub struct Row {
    pub number: usize,
    pub found: Finding,
    pub terminal: u32,
    pub window: Window,
}

/// What is expected of each relay in each shot: shot by shot, and in each the terminals in line order.
pub fn rows_of(alloc: Global, cases: &Cases, shots: &[Finding]) -> Result<Vec<Row>, Memory>
    ensures { IfOk result (λ rows. AreRows cases.now.compiled.line.now cases.now.scripts.now
        shots.now rows.items) }
{
    let mut rows = Vec::new(alloc);
    for i in 0..shots.len() {
        push_shot(alloc, cases, shots, i, &mut rows)?;
    }
    Ok(rows)
}

// Adds those of shot i.
fn push_shot(
    alloc: Global,
    cases: &Cases,
    shots: &[Finding],
    i: usize,
    rows: &mut Vec<Row>,
) -> Result<(), Memory>
    requires exists { i < length shots.now }
    requires before { OneEach (IsRow cases.now.compiled.line.now cases.now.scripts.now shots.now)
        (i * terminal_count cases.now.compiled.line.now) rows.old.items }
    ensures { OnOk result (OneEach
        (IsRow cases.now.compiled.line.now cases.now.scripts.now shots.now)
        (i * terminal_count cases.now.compiled.line.now + terminal_count
        cases.now.compiled.line.now)
        rows.new.items) }
{
    // A shot is of a script that there is: there is always one.
    let Some(script) = cases.scripts.get(shots[i].script as usize) else {
        return Err(Memory);
    };
    let waves = analyse(alloc, &cases.compiled, script)?;
    push_rows(cases, shots, i, script, &waves, rows)
}

// Adds those of shot i, whose script has these waves.
fn push_rows(
    cases: &Cases,
    shots: &[Finding],
    i: usize,
    script: &Script,
    waves: &PairWaves,
    rows: &mut Vec<Row>,
) -> Result<(), Memory>
    requires exists { i < length shots.now }
    requires script { (shot : FindingOf) → slice_get shots.now i ≡ Some shot →
        slice_get cases.now.scripts.now shot.script ≡ Some script.now }
    requires before { OneEach (IsRow cases.now.compiled.line.now cases.now.scripts.now shots.now)
        (i * terminal_count cases.now.compiled.line.now) rows.old.items }
    requires terminals { waves.now.terminals ≡ terminal_count cases.now.compiled.line.now }
    requires horizon { waves.now.horizon ≡ cases.now.compiled.line.now.horizon }
    requires history { IsTheHistory cases.now.compiled.line.now script.now
        (declared_box cases.now.compiled.line.now) (pair_history waves.now) }
    ensures { OnOk result (OneEach
        (IsRow cases.now.compiled.line.now cases.now.scripts.now shots.now)
        (i * terminal_count cases.now.compiled.line.now + terminal_count
        cases.now.compiled.line.now)
        rows.new.items) }
{
    for k in 0..cases.compiled.line.terminals.len() {
        let one = row_of(cases, shots, i, script, waves, k as u32);
        rows.push(one)?;
    }
    Ok(())
}

// That of shot i at a terminal.
fn row_of(
    cases: &Cases,
    shots: &[Finding],
    i: usize,
    script: &Script,
    waves: &PairWaves,
    terminal: u32,
) -> Row
    requires exists { i < length shots.now }
    requires script { (shot : FindingOf) → slice_get shots.now i ≡ Some shot →
        slice_get cases.now.scripts.now shot.script ≡ Some script.now }
    requires terminal { terminal < terminal_count cases.now.compiled.line.now }
    requires terminals { waves.now.terminals ≡ terminal_count cases.now.compiled.line.now }
    requires horizon { waves.now.horizon ≡ cases.now.compiled.line.now.horizon }
    requires history { IsTheHistory cases.now.compiled.line.now script.now
        (declared_box cases.now.compiled.line.now) (pair_history waves.now) }
    ensures { IsRow cases.now.compiled.line.now cases.now.scripts.now shots.now
        (i * terminal_count cases.now.compiled.line.now + terminal) result }
{
    Row {
        number: i + 1,
        found: shots[i],
        terminal,
        window: window_of(waves, terminal),
    }
}
