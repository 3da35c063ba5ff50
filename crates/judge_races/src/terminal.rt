//! The races of a terminal.

ghost use Rattle.std.specs.Prelude.{◌≡◌, ◌<◌, ◌≤◌, IfOk, length, map};
ghost use Rattle.std.specs.List.{All};
ghost use Rattle.model_line.specs.Parameters.{terminal_count};
ghost use Rattle.model_line.specs.declared.script.Script.{Script};
ghost use Rattle.net_gates.specs.Formulas.{formula_of};
ghost use Rattle.run_waves.specs.waves.Waves.{AreWaves};
ghost use Rattle.net_gates.specs.Formulas.{trees_of};
ghost use Rattle.judge_races.specs.Gates.{AreIn};
ghost use Rattle.judge_races.specs.Lasting.{AreColumns, AreHistoryWaves, IsColumnOf, IsTripOf};
ghost use Rattle.judge_races.specs.Races.{columns_of};

use crate::lacks::column;
use crate::operands::{input_gate, least_pickup, set_gate};
use crate::stretch::{Stretch, longest, offs};
use model_line::Memory;
use net_gates::{Compiled, GateId};
use run_waves::derived::nth;
use run_waves::waves::Runs;
use std::alloc::Global;

/// What an operand lacks at each tick of a script, of whose interval history these are the waves.
pub fn column_of(
    alloc: Global,
    compiled: &Compiled<'_>,
    waves: &[Runs],
    id: GateId,
) -> Result<Vec<Option<u32>>, Memory>
    requires exists { id.0 < length compiled.now.net.now.gates }
    requires waves { AreWaves (length compiled.now.net.now.gates) compiled.now.line.now.horizon
        waves.now }
    ensures long { IfOk result (λ column. length column.items ≡ compiled.now.line.now.horizon) }
    ensures is { IfOk result (λ column. (script : Script) →
        AreHistoryWaves compiled.now.line.now script compiled.now.net.now.gates waves.now →
        IsColumnOf compiled.now.line.now script (formula_of compiled.now.net.now.gates id.0)
        column.items) }
{
    let input = input_gate(compiled.net, id);
    let wave = nth(waves, input.0);
    let until = offs(alloc, wave)?;
    let pickup = least_pickup(compiled, id);
    let lacks = column(alloc, &until, pickup)?;
    Ok(lacks)
}

/// What each of these operands lacks.
pub fn columns_at(
    alloc: Global,
    compiled: &Compiled<'_>,
    waves: &[Runs],
    ids: &[GateId],
) -> Result<Vec<Vec<Option<u32>>>, Memory>
    requires exist { AreIn compiled.now.net.now.gates ids.now }
    requires waves { AreWaves (length compiled.now.net.now.gates) compiled.now.line.now.horizon
        waves.now }
    ensures long { IfOk result (λ columns.
        All (λ column. length column.items ≡ compiled.now.line.now.horizon) columns.items) }
    ensures are { IfOk result (λ columns. (script : Script) →
        AreHistoryWaves compiled.now.line.now script compiled.now.net.now.gates waves.now →
        AreColumns compiled.now.line.now script (trees_of compiled.now.net.now.gates ids.now)
        (columns_of columns.items)) }
{
    let mut columns = Vec::with_capacity(alloc, ids.len())?;
    for i in 0..ids.len() {
        let lacks = column_of(alloc, compiled, waves, ids[i])?;
        columns.push(lacks)?;
    }
    Ok(columns)
}

/// The longest stretch of ticks of a script at which a terminal's trip may be set, the first of these;
/// nothing where it may not.
pub fn trip_of(
    alloc: Global,
    compiled: &Compiled<'_>,
    waves: &[Runs],
    k: u32,
) -> Result<Option<Stretch>, Memory>
    requires terminal { k < terminal_count compiled.now.line.now }
    requires waves { AreWaves (length compiled.now.net.now.gates) compiled.now.line.now.horizon
        waves.now }
    ensures { IfOk result (λ trip. (script : Script) →
        AreHistoryWaves compiled.now.line.now script compiled.now.net.now.gates waves.now →
        IsTripOf compiled.now.line.now script k trip) }
{
    let set = set_gate(compiled, k);
    let wave = nth(waves, set.0);
    let until = offs(alloc, wave)?;
    Ok(longest(&until))
}
