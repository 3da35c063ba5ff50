//! What the gates of a net are called.

ghost use Rattle.std.specs.Prelude.{◌≡◌, ◌<◌, ℕ, IfOk, length, is_some, get_or, false};
ghost use Rattle.model_line.specs.Parameters.{terminal_count};
ghost use Rattle.model_plain.specs.Roles.{roles_at};
ghost use Rattle.draw_gates.specs.roles.Lookup.{role_among};
ghost use Rattle.call_why.specs.Parts.{end_of, part_at as part_at_of, part_below, part_of};

use crate::part::{Part, first_of, told_role};
use draw_gates::roles::role_of_gate;
use model_line::Memory;
use model_plain::{Role, named_parts};
use net_gates::{Compiled, GateId};
use std::alloc::Global;

/// What a gate is called: by the first terminal that has a name for it.
#[tactic(auto, unfolding(crate::specs::Parts::part_of))]
pub fn part_of_gate(alloc: Global, compiled: &Compiled<'_>, i: u32) -> Result<Option<Part>, Memory>
    ensures { IfOk result (λ part.
        part ≡ part_of compiled.now.line.now compiled.now.net.now i) }
{
    if i < compiled.net.len() {
        part_in(alloc, compiled, i)
    } else {
        Ok(None)
    }
}

// The same of a gate of the net.
fn part_in(alloc: Global, compiled: &Compiled<'_>, i: u32) -> Result<Option<Part>, Memory>
    requires { i < length compiled.now.net.now.gates }
    ensures { IfOk result (λ part. part ≡ part_below compiled.now.line.now compiled.now.net.now i
        (terminal_count compiled.now.line.now)) }
{
    let mut part = None;
    for k in 0..compiled.line.terminals.len() {
        part = first_of(part, part_at(alloc, compiled, k as u32, i)?);
    }
    Ok(part)
}

// What a terminal calls it.
fn part_at(alloc: Global, compiled: &Compiled<'_>, k: u32, i: u32) -> Result<Option<Part>, Memory>
    requires terminal { k < terminal_count compiled.now.line.now }
    requires exists { i < length compiled.now.net.now.gates }
    ensures { IfOk result (λ part.
        part ≡ part_at_of compiled.now.line.now compiled.now.net.now i k) }
{
    let role = role_at(alloc, compiled, k, i)?;
    Ok(first_of(told_role(role), end_at(compiled, k, i)))
}

// The trip of a terminal, or what it sends, if the gate is that.
fn end_at(compiled: &Compiled<'_>, k: u32, i: u32) -> Option<Part>
    requires { k < terminal_count compiled.now.line.now }
    ensures { result ≡ end_of compiled.now.net.now i k }
{
    if compiled.net.trip_gate(k).0 == i {
        Some(Part::Trip(k))
    } else if compiled.net.key_gate(k).0 == i {
        Some(Part::Key(k))
    } else {
        None
    }
}

// The first role that a terminal has for it.
fn role_at(alloc: Global, compiled: &Compiled<'_>, k: u32, i: u32) -> Result<Option<Role>, Memory>
    requires terminal { k < terminal_count compiled.now.line.now }
    requires exists { i < length compiled.now.net.now.gates }
    ensures { IfOk result (λ role. role ≡ role_among compiled.now.line.now
        compiled.now.net.now.gates i (roles_at compiled.now.line.now k)) }
{
    let parts = named_parts(alloc, compiled.line, k)?;
    Ok(role_of_gate(compiled.net, GateId(i), parts.as_slice()))
}

/// Which gates have a name.
pub fn named_gates(alloc: Global, compiled: &Compiled<'_>) -> Result<Vec<bool>, Memory>
    ensures { IfOk result (λ named. (i : ℕ) → get_or named.items i false
        ≡ is_some (part_of compiled.now.line.now compiled.now.net.now i)) }
{
    let mut named = Vec::new(alloc);
    for i in 0..compiled.net.len() {
        let part = part_of_gate(alloc, compiled, i)?;
        named.push(part.is_some())?;
    }
    Ok(named)
}
