//! The names of gates.

ghost use Rattle.std.specs.Prelude.{◌≡◌, ◌++◌, IfOk, OnOk};
ghost use Rattle.model_line.specs.ParamNames.{name_at};
ghost use Rattle.model_plain.specs.Roles.{receiver as receiver_of, sender as sender_of};
ghost use Rattle.draw_gates.specs.dump.Variables.{kind_text, channel_text, step_text, role_text};

use crate::dump::put::{put, put_number};
use model_line::{Line, Memory, element_word};
use model_plain::{Role, receiver, sender};
use net_gates::Gate;
use std::alloc::Global;

/// The name of a role.
pub fn name_of_role(alloc: Global, line: &Line, role: Role) -> Result<Vec<u8>, Memory>
    ensures { IfOk result (λ name. name.items ≡ role_text line.now role) }
{
    match role {
        Role::Seen(place) => two_words(alloc, element_word(place.element), b""),
        Role::Timed(place) => two_words(alloc, element_word(place.element), b"_on"),
        Role::Lost(c) => word_and_channel(alloc, b"loss_", line, c),
        Role::Raw(c) => word_and_channel(alloc, b"raw_", line, c),
        Role::Received(c) => word_and_channel(alloc, b"rx_", line, c),
        Role::Window(c) => word_and_channel(alloc, b"window_", line, c),
        Role::Lockout(c) => word_and_channel(alloc, b"lockout_", line, c),
        Role::Guard(k) => word_and_terminal(alloc, b"guard_", line, k),
        Role::Coordination(k) => word_and_terminal(alloc, b"coord_", line, k),
        Role::Echo(k) => word_and_terminal(alloc, b"echo_", line, k),
        Role::Permission(k) => word_and_terminal(alloc, b"perm_", line, k),
        Role::AnyReceived(k) => word_and_terminal(alloc, b"rx_", line, k),
    }
}

/// The number and kind of a gate.
pub fn name_of_step(alloc: Global, i: u32, gate: Gate) -> Result<Vec<u8>, Memory>
    ensures { IfOk result (λ name. name.items ≡ step_text i gate) }
{
    let mut name = Vec::from_slice(alloc, b"g")?;
    put_number(&mut name, i as u64)?;
    put(&mut name, b"_")?;
    put(&mut name, kind_word(gate))?;
    Ok(name)
}

fn two_words(alloc: Global, first: &[u8], second: &[u8]) -> Result<Vec<u8>, Memory>
    ensures { IfOk result (λ name. name.items ≡ first.now ++ second.now) }
{
    let mut name = Vec::from_slice(alloc, first)?;
    put(&mut name, second)?;
    Ok(name)
}

/// A word, and the name of a terminal.
pub fn word_and_terminal(alloc: Global, word: &[u8], line: &Line, k: u32) -> Result<Vec<u8>, Memory>
    ensures { IfOk result (λ name. name.items ≡ word.now ++ name_at line.now.terminals.items k) }
{
    let mut name = Vec::from_slice(alloc, word)?;
    put_name(&mut name, line, k)?;
    Ok(name)
}

// A word, and a channel as `B_A`.
fn word_and_channel(
    alloc: Global,
    word: &[u8],
    line: &Line,
    channel: u32,
) -> Result<Vec<u8>, Memory>
    ensures { IfOk result (λ name. name.items ≡ word.now ++ channel_text line.now channel) }
{
    let mut name = Vec::from_slice(alloc, word)?;
    put_channel(&mut name, line, channel)?;
    Ok(name)
}

fn put_channel(text: &mut Vec<u8>, line: &Line, channel: u32) -> Result<(), Memory>
    ensures { OnOk result (text.new.items ≡ text.old.items ++ channel_text line.now channel) }
{
    put_name(text, line, sender(line, channel))?;
    put(text, b"_")?;
    put_name(text, line, receiver(line, channel))
}

// Appends the name of a terminal; nothing where there is no such terminal.
fn put_name(text: &mut Vec<u8>, line: &Line, k: u32) -> Result<(), Memory>
    ensures { OnOk result (text.new.items ≡ text.old.items ++ name_at line.now.terminals.items k) }
{
    if k < line.terminals.len() as u32 {
        put(text, line.terminals[k as usize].name.bytes())
    } else {
        Ok(())
    }
}

fn kind_word(gate: Gate) -> &'static [u8]
    ensures { result.now ≡ kind_text gate }
{
    match gate {
        Gate::Const(_) => b"const",
        Gate::Seen(_) => b"seen",
        Gate::Loss(_) => b"loss",
        Gate::Raw(_) => b"raw",
        Gate::Not(_) => b"not",
        Gate::And(_, _) => b"and",
        Gate::Or(_, _) => b"or",
        Gate::Timer(_, _, _) => b"timer",
        Gate::Seal(_, _) => b"seal",
    }
}
