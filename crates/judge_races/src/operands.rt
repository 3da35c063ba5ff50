//! The operands of what sets a terminal's trip, by their gates.

ghost use Rattle.std.specs.Prelude.{◌≡◌, ◌<◌, ◌++◌, IfOk, OnOk, length};
ghost use Rattle.std.specs.List.{All};
ghost use Rattle.model_line.specs.Parameters.{terminal_count};
ghost use Rattle.model_logic.specs.Logic.{set_tree};
ghost use Rattle.net_gates.specs.Formulas.{formula_of, kind_over, Stands};
ghost use Rattle.net_gates.specs.Gates.{HasArguments};
ghost use Rattle.judge_races.specs.Operands.{alternatives, operands, input_of, is_raw as is_raw_tree};
ghost use Rattle.judge_races.specs.Operands.{is_no_time as is_no_time_so};
ghost use Rattle.net_gates.specs.Formulas.{trees_of};
ghost use Rattle.judge_races.specs.Gates.{AreIn, AreConjunctions, StandFor};
ghost use Rattle.judge_races.specs.Lasting.{least_pickup as pickup_so};
ghost use Rattle.model_line.specs.Parameters.{declared_ends};
ghost use Rattle.model_logic.specs.{Names.HasTime, Choice.ends_by};

use model_line::Memory;
use model_logic::Time;
use net_gates::{Compiled, Gate, GateId, Net};
use std::alloc::Global;

/// The conjunctions one or another of which sets the trip of a terminal, each by the gates of its
/// operands.
pub fn conjunctions(
    alloc: Global,
    compiled: &Compiled<'_>,
    k: u32,
) -> Result<Vec<Vec<GateId>>, Memory>
    requires { k < terminal_count compiled.now.line.now }
    ensures { IfOk result (λ all. AreConjunctions compiled.now.net.now.gates
        (alternatives (set_tree compiled.now.line.now k)) all.items) }
{
    let set = set_gate(compiled, k);
    let mut each = Vec::new(alloc);
    push_alternatives(compiled.net, set, &mut each)?;
    let mut all = Vec::with_capacity(alloc, each.len())?;
    for i in 0..each.len() {
        let ids = operand_gates(alloc, compiled.net, each[i])?;
        all.push(ids)?;
    }
    Ok(all)
}

// The gates of the operands of a gate.
fn operand_gates(alloc: Global, net: &Net, id: GateId) -> Result<Vec<GateId>, Memory>
    requires { id.0 < length net.now.gates }
    ensures { IfOk result (λ ids. StandFor net.now.gates ids.items
        (operands (formula_of net.now.gates id.0))) }
{
    let mut ids = Vec::new(alloc);
    push_operands(net, id, &mut ids)?;
    Ok(ids)
}

/// The gate of what sets a terminal's trip.
#[tactic(auto, unfolding(model_logic::specs::Logic::trip_tree))]
pub fn set_gate(compiled: &Compiled<'_>, k: u32) -> GateId
    requires { k < terminal_count compiled.now.line.now }
    ensures { Stands compiled.now.net.now.gates result.0 (set_tree compiled.now.line.now k) }
{
    let trip = compiled.net.trip_gate(k);
    match gate_at(compiled.net, trip) {
        Gate::Seal(set, _) => set,
        _ => unreachable!(),
    }
}

// The gate of this number, whose arguments are earlier gates.
fn gate_at(net: &Net, id: GateId) -> Gate
    requires { id.0 < length net.now.gates }
    ensures stands { formula_of net.now.gates id.0 ≡ kind_over net.now.gates result }
    ensures arguments { HasArguments id.0 result }
{
    let _laws = net.len();
    *net.gate(id)
}

// Appends the gates of the alternatives of a gate.
fn push_alternatives(net: &Net, id: GateId, ids: &mut Vec<GateId>) -> Result<(), Memory>
    requires { id.0 < length net.now.gates }
    ensures trees { OnOk result (trees_of net.now.gates ids.new.items
        ≡ trees_of net.now.gates ids.old.items ++ alternatives (formula_of net.now.gates id.0)) }
    ensures there { OnOk result (AreIn net.now.gates ids.old.items →
        AreIn net.now.gates ids.new.items) }
{
    match gate_at(net, id) {
        Gate::Or(a, b) => {
            push_alternatives(net, a, ids)?;
            push_alternatives(net, b, ids)?;
        }
        _ => ids.push(id)?,
    }
    Ok(())
}

// Appends the gates of the operands of a gate.
fn push_operands(net: &Net, id: GateId, ids: &mut Vec<GateId>) -> Result<(), Memory>
    requires { id.0 < length net.now.gates }
    ensures trees { OnOk result (trees_of net.now.gates ids.new.items
        ≡ trees_of net.now.gates ids.old.items ++ operands (formula_of net.now.gates id.0)) }
    ensures there { OnOk result (AreIn net.now.gates ids.old.items →
        AreIn net.now.gates ids.new.items) }
{
    match gate_at(net, id) {
        Gate::And(a, b) => {
            if is_raw(net, a) {
                ids.push(id)?;
            } else {
                push_operands(net, a, ids)?;
                push_operands(net, b, ids)?;
            }
        }
        _ => ids.push(id)?,
    }
    Ok(())
}

// Whether a gate is what arrives over a channel.
fn is_raw(net: &Net, id: GateId) -> bool
    requires { id.0 < length net.now.gates }
    ensures { result ≡ is_raw_tree (formula_of net.now.gates id.0) }
{
    match *net.gate(id) {
        Gate::Raw(_) => true,
        _ => false,
    }
}

fn is_no_time(time: Time) -> bool
    ensures { result ≡ is_no_time_so time }
{
    match time {
        Time::Zero => true,
        Time::Param(_) => false,
    }
}

/// The gate of what has to last so that an operand is on.
pub fn input_gate(net: &Net, id: GateId) -> GateId
    requires { id.0 < length net.now.gates }
    ensures { Stands net.now.gates result.0 (input_of (formula_of net.now.gates id.0)) }
{
    match gate_at(net, id) {
        Gate::Timer(a, _, dropout) => { if is_no_time(dropout) { a } else { id } }
        _ => id,
    }
}

/// How long it has to last at least.
pub fn least_pickup(compiled: &Compiled<'_>, id: GateId) -> u32
    requires { id.0 < length compiled.now.net.now.gates }
    ensures { result ≡ pickup_so compiled.now.line.now (formula_of compiled.now.net.now.gates id.0) }
{
    match *compiled.net.gate(id) {
        Gate::Timer(_, pickup, dropout) => {
            if is_no_time(dropout) {
                least(compiled, pickup)
            } else {
                0
            }
        }
        _ => 0,
    }
}

// The least of a time.
fn least(compiled: &Compiled<'_>, time: Time) -> u32
    requires { HasTime compiled.now.line.now time }
    ensures { result ≡ (ends_by (declared_ends compiled.now.line.now) time).least }
{
    match time {
        Time::Zero => 0,
        Time::Param(i) => compiled.line.least(i),
    }
}
