//! The gates that an echo starts from, and that tell that its pulse is over.

ghost use Rattle.std.specs.Prelude.{◌≡◌, ◌<◌, length, IsTrue};
ghost use Rattle.model_logic.specs.Elements.{is_weak};
ghost use Rattle.model_logic.specs.Tree.{Tree, And, Not, Or, Timer};
ghost use Rattle.model_logic.specs.declared.time.Time.{Time};
ghost use Rattle.model_settle.specs.Assumed.{wanted, pulse_over};
ghost use Rattle.net_gates.specs.{Formulas.formula_of};
ghost use Rattle.judge_cases.specs.Rows.{echo_timer};

use model_logic::Time;
use net_gates::{Compiled, Gate, GateId, Net};

/// The gate that stands for what the echo of a weak terminal starts from, WANT. A weak terminal
/// keys zone 2 unless the guard holds it back, or the echo, which is what it wants, for one pulse.
pub fn wanted_gate(compiled: &Compiled<'_>, terminal: u32) -> GateId
    requires weak { IsTrue (is_weak compiled.now.line.now terminal) }
    ensures exists { result.0 < length compiled.now.net.now.gates }
    ensures is { formula_of compiled.now.net.now.gates result.0 ≡ wanted compiled.now.line.now
        terminal }
{
    let echo = second_of_or(compiled.net, compiled.net.key_gate(terminal));
    first_of_and(compiled.net, echo)
}

/// The gate that tells that the pulse of a weak terminal's echo is over: WANT has been on for that
/// long.
pub fn over_gate(compiled: &Compiled<'_>, terminal: u32) -> GateId
    requires weak { IsTrue (is_weak compiled.now.line.now terminal) }
    ensures exists { result.0 < length compiled.now.net.now.gates }
    ensures is { formula_of compiled.now.net.now.gates result.0 ≡ pulse_over compiled.now.line.now
        terminal }
{
    let echo = second_of_or(compiled.net, compiled.net.key_gate(terminal));
    let still = second_of_and(compiled.net, echo);
    argument_of_not(compiled.net, still)
}

/// The gate of what the echo of a weak terminal starts from, or of what tells that its pulse is over.
pub fn timer_gate(compiled: &Compiled<'_>, terminal: u32, throughout: bool) -> GateId
    requires weak { IsTrue (is_weak compiled.now.line.now terminal) }
    ensures exists { result.0 < length compiled.now.net.now.gates }
    ensures is { formula_of compiled.now.net.now.gates result.0
        ≡ echo_timer compiled.now.line.now terminal throughout }
{
    if throughout {
        wanted_gate(compiled, terminal)
    } else {
        over_gate(compiled, terminal)
    }
}

/// The pickup of a gate that is a timer; of another none.
pub fn pickup_of(net: &Net, gate: GateId) -> Time
    requires { gate.0 < length net.now.gates }
    ensures { (x : Tree) (pickup dropout : Time) →
        formula_of net.now.gates gate.0 ≡ Timer x pickup dropout → result ≡ pickup }
{
    let _laws = net.len();
    match *net.gate(gate) {
        Gate::Timer(_, pickup, _) => pickup,
        _ => Time::Zero,
    }
}

// The second argument of a gate that is an or; of another the gate.
fn second_of_or(net: &Net, gate: GateId) -> GateId
    requires { gate.0 < length net.now.gates }
    ensures exists { result.0 < length net.now.gates }
    ensures second { (x y : Tree) → formula_of net.now.gates gate.0 ≡ Or x y →
        formula_of net.now.gates result.0 ≡ y }
{
    let _laws = net.len();
    match *net.gate(gate) {
        Gate::Or(_, second) => second,
        _ => gate,
    }
}

// The first argument of a gate that is an and; of another the gate.
fn first_of_and(net: &Net, gate: GateId) -> GateId
    requires { gate.0 < length net.now.gates }
    ensures exists { result.0 < length net.now.gates }
    ensures first { (x y : Tree) → formula_of net.now.gates gate.0 ≡ And x y →
        formula_of net.now.gates result.0 ≡ x }
{
    let _laws = net.len();
    match *net.gate(gate) {
        Gate::And(first, _) => first,
        _ => gate,
    }
}

// The second argument of a gate that is an and; of another the gate.
fn second_of_and(net: &Net, gate: GateId) -> GateId
    requires { gate.0 < length net.now.gates }
    ensures exists { result.0 < length net.now.gates }
    ensures second { (x y : Tree) → formula_of net.now.gates gate.0 ≡ And x y →
        formula_of net.now.gates result.0 ≡ y }
{
    let _laws = net.len();
    match *net.gate(gate) {
        Gate::And(_, second) => second,
        _ => gate,
    }
}

// The argument of a gate that is a not; of another the gate.
fn argument_of_not(net: &Net, gate: GateId) -> GateId
    requires { gate.0 < length net.now.gates }
    ensures exists { result.0 < length net.now.gates }
    ensures argument { (x : Tree) → formula_of net.now.gates gate.0 ≡ Not x →
        formula_of net.now.gates result.0 ≡ x }
{
    let _laws = net.len();
    match *net.gate(gate) {
        Gate::Not(argument) => argument,
        _ => gate,
    }
}
