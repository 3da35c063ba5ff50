//! The variables of a value change dump.

ghost use Rattle.std.specs.Prelude.{◌≡◌, ◌<◌, ◌++◌, length, is_some, IfOk, OnOk};
ghost use Rattle.model_history.specs.Each.{each_below};
ghost use Rattle.model_line.specs.{ParamNames.name_at, Parameters.terminal_count};
ghost use Rattle.draw_gates.specs.roles.Lookup.{role_among};
ghost use Rattle.model_plain.specs.Roles.{roles_at as roles_of};
ghost use Rattle.draw_gates.specs.dump.Variables.{code_of, variable_head, variable_text, scope_text};
ghost use Rattle.draw_gates.specs.dump.Variables.{step_text, role_text, named_variable, variable_at};
ghost use Rattle.draw_gates.specs.dump.Variables.{is_named as is_named_gate, step_variable, variable_of};
ghost use Rattle.draw_gates.specs.dump.Variables.{terminal_scope, declarations};

use crate::dump::identifier::put_identifier;
use crate::dump::names::{name_of_role, name_of_step, word_and_terminal};
use crate::dump::put::put;
use crate::roles::role_of_gate;
use model_line::{Line, Memory};
use model_plain::{Role, named_parts};
use net_gates::{Compiled, GateId};
use std::alloc::Global;

/// Appends all declarations.
#[tactic(auto, unfolding(crate::specs::dump::Variables::declarations))]
pub fn put_declarations(
    alloc: Global,
    text: &mut Vec<u8>,
    compiled: &Compiled<'_>,
) -> Result<(), Memory>
    ensures { OnOk result (text.new.items ≡ text.old.items
        ++ declarations compiled.now.line.now compiled.now.net.now) }
{
    put_terminals(alloc, text, compiled)?;
    put_scope(text, b"gates$")?;
    put_steps(alloc, text, compiled)?;
    put(text, b"$upscope $end\n")
}

// Appends the scope of each terminal.
fn put_terminals(alloc: Global, text: &mut Vec<u8>, compiled: &Compiled<'_>) -> Result<(), Memory>
    ensures { OnOk result (text.new.items
        ≡ text.old.items ++ each_below (terminal_count compiled.now.line.now)
        (terminal_scope compiled.now.line.now compiled.now.net.now)) }
{
    for k in 0..compiled.line.terminals.len() as u32 {
        put_terminal(alloc, text, compiled, k)?;
    }
    Ok(())
}

// Appends the scope of a terminal.
#[tactic(auto, unfolding(crate::specs::dump::Variables::terminal_scope))]
fn put_terminal(
    alloc: Global,
    text: &mut Vec<u8>,
    compiled: &Compiled<'_>,
    k: u32,
) -> Result<(), Memory>
    requires exists { k < terminal_count compiled.now.line.now }
    ensures { OnOk result (text.new.items ≡ text.old.items
        ++ terminal_scope compiled.now.line.now compiled.now.net.now k) }
{
    put_scope(text, compiled.line.terminals[k as usize].name.bytes())?;
    put_named(alloc, text, compiled, k)?;
    put_end(
        alloc,
        text,
        b"key_",
        compiled.line,
        k,
        compiled.net.key_gate(k),
    )?;
    put_end(
        alloc,
        text,
        b"trip_",
        compiled.line,
        k,
        compiled.net.trip_gate(k),
    )?;
    put(text, b"$upscope $end\n")
}

fn put_scope(text: &mut Vec<u8>, name: &[u8]) -> Result<(), Memory>
    ensures { OnOk result (text.new.items ≡ text.old.items ++ scope_text name.now) }
{
    put(text, b"$scope module ")?;
    put_identifier(text, name)?;
    put(text, b" $end\n")
}

// Appends the variable of a terminal's key or trip.
fn put_end(
    alloc: Global,
    text: &mut Vec<u8>,
    word: &[u8],
    line: &Line,
    k: u32,
    id: GateId,
) -> Result<(), Memory>
    requires { id.0 < 512 }
    ensures { OnOk result (text.new.items
        ≡ text.old.items
        ++ variable_text id.0 (word.now ++ name_at line.now.terminals.items k)) }
{
    let name = word_and_terminal(alloc, word, line, k)?;
    put_variable(text, id.0, name.as_slice())
}

// Appends the gates for which a terminal has a role.
fn put_named(
    alloc: Global,
    text: &mut Vec<u8>,
    compiled: &Compiled<'_>,
    k: u32,
) -> Result<(), Memory>
    requires { k < terminal_count compiled.now.line.now }
    ensures { OnOk result (text.new.items
        ≡ text.old.items
        ++ each_below (length compiled.now.net.now.gates)
        (variable_at compiled.now.line.now compiled.now.net.now.gates k)) }
{
    for i in 0..compiled.net.len() {
        put_named_gate(alloc, text, compiled, k, i)?;
    }
    Ok(())
}

#[tactic(auto, unfolding(crate::specs::dump::Variables::variable_at))]
fn put_named_gate(
    alloc: Global,
    text: &mut Vec<u8>,
    compiled: &Compiled<'_>,
    k: u32,
    i: u32,
) -> Result<(), Memory>
    requires terminal { k < terminal_count compiled.now.line.now }
    requires exists { i < length compiled.now.net.now.gates }
    requires few { i < 512 }
    ensures { OnOk result (text.new.items
        ≡ text.old.items ++ variable_at compiled.now.line.now compiled.now.net.now.gates k i) }
{
    let role = role_at(alloc, compiled, k, i)?;
    put_role(alloc, text, compiled.line, i, role)
}

// The first role of a gate at a terminal.
fn role_at(alloc: Global, compiled: &Compiled<'_>, k: u32, i: u32) -> Result<Option<Role>, Memory>
    requires terminal { k < terminal_count compiled.now.line.now }
    requires exists { i < length compiled.now.net.now.gates }
    ensures { IfOk result (λ role.
        role ≡ role_among compiled.now.line.now compiled.now.net.now.gates i
        (roles_of compiled.now.line.now k)) }
{
    let parts = named_parts(alloc, compiled.line, k)?;
    Ok(role_of_gate(compiled.net, GateId(i), parts.as_slice()))
}

// Appends a gate under the name of its role.
fn put_role(
    alloc: Global,
    text: &mut Vec<u8>,
    line: &Line,
    i: u32,
    role: Option<Role>,
) -> Result<(), Memory>
    requires { i < 512 }
    ensures { OnOk result (text.new.items ≡ text.old.items ++ named_variable line.now i role) }
{
    match role {
        None => Ok(()),
        Some(role) => {
            let name = name_of_role(alloc, line, role)?;
            put_variable(text, i, name.as_slice())
        }
    }
}

// Appends the gates for which no terminal has a role.
fn put_steps(alloc: Global, text: &mut Vec<u8>, compiled: &Compiled<'_>) -> Result<(), Memory>
    ensures { OnOk result (text.new.items
        ≡ text.old.items ++ each_below (length compiled.now.net.now.gates)
        (variable_of compiled.now.line.now compiled.now.net.now.gates)) }
{
    for i in 0..compiled.net.len() {
        put_step(alloc, text, compiled, i)?;
    }
    Ok(())
}

#[tactic(auto, unfolding(crate::specs::dump::Variables::variable_of))]
fn put_step(
    alloc: Global,
    text: &mut Vec<u8>,
    compiled: &Compiled<'_>,
    i: u32,
) -> Result<(), Memory>
    requires exists { i < length compiled.now.net.now.gates }
    requires few { i < 512 }
    ensures { OnOk result (text.new.items
        ≡ text.old.items ++ variable_of compiled.now.line.now compiled.now.net.now.gates i) }
{
    let gate = *compiled.net.gate(GateId(i));
    if is_named(alloc, compiled, i)? {
        return Ok(());
    }
    let name = name_of_step(alloc, i, gate)?;
    put_variable(text, i, name.as_slice())
}

// Whether some terminal has a role for a gate.
fn is_named(alloc: Global, compiled: &Compiled<'_>, i: u32) -> Result<bool, Memory>
    requires { i < length compiled.now.net.now.gates }
    ensures { IfOk result (λ named. named
        ≡ is_named_gate compiled.now.line.now compiled.now.net.now.gates i) }
{
    let mut named = false;
    for k in 0..compiled.line.terminals.len() as u32 {
        named = named || role_at(alloc, compiled, k, i)?.is_some();
    }
    Ok(named)
}

// Appends the variable of a gate.
fn put_variable(text: &mut Vec<u8>, i: u32, name: &[u8]) -> Result<(), Memory>
    requires { i < 512 }
    ensures { OnOk result (text.new.items ≡ text.old.items ++ variable_text i name.now) }
{
    put_head(text, i)?;
    put_identifier(text, name)?;
    put(text, b" $end\n")
}

// Appends what stands before the name of a gate's variable.
#[tactic(auto, unfolding(crate::specs::dump::Variables::variable_head))]
fn put_head(text: &mut Vec<u8>, i: u32) -> Result<(), Memory>
    requires { i < 512 }
    ensures { OnOk result (text.new.items ≡ text.old.items ++ variable_head i) }
{
    put(text, b"$var wire 1 ")?;
    put_code(text, i)?;
    put(text, b" ")
}

/// Appends the identifier code of a gate.
#[tactic(auto, unfolding(crate::specs::dump::Variables::code_of))]
pub fn put_code(text: &mut Vec<u8>, i: u32) -> Result<(), Memory>
    requires { i < 512 }
    ensures { OnOk result (text.new.items ≡ text.old.items ++ code_of i) }
{
    put(text, &[(33 + i / 94) as u8, (33 + i % 94) as u8])
}
