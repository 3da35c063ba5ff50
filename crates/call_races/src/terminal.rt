//! What is told of a fault at a terminal.

ghost use Rattle.std.specs.Prelude.{◌≡◌, ◌<◌, ◌++◌, ◌^◌, Some, slice_get, length, IfOk, Option, is_some};
ghost use Rattle.model_line.specs.Parameters.{terminal_count};
ghost use Rattle.model_line.specs.declared.script.Script.{Script};
ghost use Rattle.model_logic.specs.Choice.{declared_box};
ghost use Rattle.model_logic.specs.Histories.{PairHistory, IsPairHistory};
ghost use Rattle.judge_races.specs.declared.stretch.Stretch.{Stretch as StretchOf};
ghost use Rattle.call_races.specs.Fault.{AreAllIn, IsFault, operands_of};
ghost use Rattle.call_races.specs.Trips.{begin_words};
ghost use Rattle.call_races.specs.Rows.{each_rows, rows_or_none, trip_rows};
ghost use Rattle.call_races.specs.Races.{Adds, IsAtTerminal, conjunctions_at};

use crate::began::push_begins;
use crate::fault::Fault;
use crate::longest::{longest_place, longest_trip};
use crate::rows::{push_each, push_if_set, rows_or_empty};
use judge_races::{Race, Stretch, conjunctions, races_at};
use model_line::Memory;
use net_gates::{Compiled, GateId};
use std::alloc::Global;

/// Appends the records of a fault at a terminal: whether its trip may be set.
pub fn push_terminal(
    alloc: Global,
    text: &mut Vec<u8>,
    fault: &Fault<'_>,
    k: u32,
) -> Result<bool, Memory>
    requires fault { IsFault fault.now }
    requires terminal { k < terminal_count fault.now.compiled.line.now }
    ensures { IfOk result (Adds (IsAtTerminal fault.now.compiled.line.now fault.now.group.now
        fault.now.scripts.now k) text.old.items text.new.items) }
{
    let all = operands_at(alloc, &fault.compiled, k)?;
    let found = races_at(alloc, &fault.compiled, fault.waves, k)?;
    let place = longest_place(&found.trips);
    let trip = longest_trip(&found.trips);
    let begins = begins_at(alloc, fault, &all, place, trip)?;
    let rows = rows_at(alloc, fault, k, &all, &found.races, place, trip, begins)?;
    text.extend_from_slice(&rows)?;
    Ok(trip.is_some())
}

// The operands of each conjunction of what sets a terminal's trip.
fn operands_at(alloc: Global, compiled: &Compiled<'_>, k: u32) -> Result<Vec<Vec<GateId>>, Memory>
    requires { k < terminal_count compiled.now.line.now }
    ensures there { IfOk result (λ all. AreAllIn compiled.now.net.now.gates all.items) }
    ensures same { IfOk result (λ all. operands_of compiled.now.net.now.gates all.items
        ≡ conjunctions_at compiled.now.line.now k) }
{
    let all = conjunctions(alloc, compiled, k)?;
    Ok(all)
}

// The words of what begins where a trip may be set, over the script at this place.
fn begins_at(
    alloc: Global,
    fault: &Fault<'_>,
    all: &[Vec<GateId>],
    place: usize,
    trip: Option<Stretch>,
) -> Result<Vec<u8>, Memory>
    requires fault { IsFault fault.now }
    requires exist { AreAllIn fault.now.compiled.net.now.gates all.now }
    ensures { IfOk result (λ begins. (script : Script) (w : PairHistory) (one : StretchOf) →
        slice_get fault.now.scripts.now place ≡ Some script → trip ≡ Some one →
        one.from < fault.now.compiled.line.now.horizon →
        IsPairHistory fault.now.compiled.line.now script
        (declared_box fault.now.compiled.line.now) w →
        begins.items ≡ begin_words fault.now.compiled.line.now script w one.from
        (operands_of fault.now.compiled.net.now.gates all.now)) }
{
    let mut begins = Vec::new(alloc);
    if let Some(one) = trip {
        if place < fault.waves.len() && one.from < fault.compiled.line.horizon {
            push_begins(
                &mut begins,
                &fault.compiled,
                &fault.waves[place],
                all,
                one.from,
            )?;
        }
    }
    Ok(begins)
}

// The records: of the trip that may be set, and of the races.
fn rows_at(
    alloc: Global,
    fault: &Fault<'_>,
    k: u32,
    all: &[Vec<GateId>],
    races: &[Vec<Race>],
    place: usize,
    trip: Option<Stretch>,
    begins: Vec<u8>,
) -> Result<Vec<u8>, Memory>
    requires exist { AreAllIn fault.now.compiled.net.now.gates all.now }
    requires place { place < 2 ^ 32 }
    ensures { IfOk result (λ rows. rows.items
        ≡ rows_or_none fault.now.compiled.line.now fault.now.group.now k
        (trip_rows fault.now.compiled.line.now fault.now.group.now k begins.items place trip
        ++ each_rows fault.now.compiled.line.now fault.now.group.now k
        (operands_of fault.now.compiled.net.now.gates all.now) races.now)) }
{
    let mut rows = Vec::new(alloc);
    let line = fault.compiled.line;
    push_if_set(alloc, &mut rows, line, fault.group, k, begins, place, trip)?;
    push_each(
        alloc,
        &mut rows,
        &fault.compiled,
        fault.group,
        k,
        all,
        races,
    )?;
    let told = rows_or_empty(alloc, line, fault.group, k, rows)?;
    Ok(told)
}
