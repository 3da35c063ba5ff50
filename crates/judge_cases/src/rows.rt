//! The rows of masks: two of each weak terminal.

ghost use Rattle.std.specs.Prelude.{◌≡◌, ◌<◌, ◌≤◌, ◌+◌, ◌*◌, ◌/◌, None, length, replicate, IfOk};
ghost use Rattle.std.specs.Prelude.{IsTrue};
ghost use Rattle.model_line.specs.Parameters.{terminal_count};
ghost use Rattle.model_logic.specs.Elements.{is_weak};
ghost use Rattle.net_gates.specs.Formulas.{formula_of};
ghost use Rattle.judge_cases.specs.Rows.{AreRows, row_count, row_tree};

use crate::wanted::{over_gate, wanted_gate};
use model_line::{Line, Memory, Terminal};
use model_logic::is_terminal_weak;
use net_gates::laws::gates_stand_for_their_trees;
use net_gates::{Compiled, GateId};
use std::alloc::Global;

/// For each gate the number of its row, if it has one: the gate that the echo of weak terminal k starts
/// from has row 2k, the one that tells that its pulse is over row 2k + 1.
pub fn rows(alloc: Global, compiled: &Compiled<'_>) -> Result<Vec<Option<u32>>, Memory>
    ensures { IfOk result (λ rows.
        AreRows compiled.now.line.now compiled.now.net.now
        (row_count compiled.now.line.now) rows.items) }
{
    let mut rows = no_rows(alloc, compiled.net.len())?;
    let count = terminals(compiled.line) as u32;
    for terminal in 0..count {
        mark(compiled, terminal, &mut rows);
    }
    Ok(rows)
}

/// How many terminals there are.
pub fn terminals(line: &Line) -> usize
    ensures count { result ≡ terminal_count line.now }
    ensures few { result ≤ 3 }
{
    let terminals: &[Terminal] = &line.terminals;
    terminals.len()
}

// No row for each of so many gates.
fn no_rows(alloc: Global, count: u32) -> Result<Vec<Option<u32>>, Memory>
    ensures { IfOk result (λ rows. rows.items ≡ replicate count None) }
{
    let mut rows = Vec::with_capacity(alloc, count as usize)?;
    rows.resize(count as usize, None).unwrap();
    Ok(rows)
}

// Marks the gates of a terminal that is weak.
fn mark(compiled: &Compiled<'_>, terminal: u32, rows: &mut Vec<Option<u32>>)
    requires few { terminal < 3 }
    requires terminal { terminal < terminal_count compiled.now.line.now }
    requires rows { AreRows compiled.now.line.now compiled.now.net.now (terminal * 2)
        rows.old.items }
    ensures { AreRows compiled.now.line.now compiled.now.net.now ((terminal + 1) * 2)
        rows.new.items }
{
    if is_terminal_weak(compiled.line, terminal) {
        let wanted = wanted_gate(compiled, terminal);
        mark_gate(compiled, wanted, terminal * 2, rows);
        let over = over_gate(compiled, terminal);
        mark_gate(compiled, over, terminal * 2 + 1, rows);
    }
}

// Marks the gate of a row.
fn mark_gate(compiled: &Compiled<'_>, gate: GateId, row: u32, rows: &mut Vec<Option<u32>>)
    requires weak { IsTrue (is_weak compiled.now.line.now (row / 2)) }
    requires gate { gate.0 < length compiled.now.net.now.gates }
    requires stands { formula_of compiled.now.net.now.gates gate.0
        ≡ row_tree compiled.now.line.now row }
    requires rows { AreRows compiled.now.line.now compiled.now.net.now row rows.old.items }
    ensures { AreRows compiled.now.line.now compiled.now.net.now (row + 1) rows.new.items }
{
    gates_stand_for_their_trees();
    rows[gate.0 as usize] = Some(row);
}
