//! The channels to a terminal that are lost.

ghost use Rattle.std.specs.Prelude.{◌≡◌, ◌<◌, ◌≤◌, true, IfOk, length, option_map};
ghost use Rattle.toml.specs.View.{view, table_view};
ghost use Rattle.model_line.specs.{Channels.channel_number, PlainNames.is_plain_name};
ghost use Rattle.model_line.specs.Terminals.{are_plain_names, names_of};
ghost use Rattle.base_memory.specs.Gives.{Becomes};
ghost use Rattle.file_records.specs.map.Signals.{signals_values, loss_under, losses_from, losses_in};
ghost use Rattle.file_records.specs.map.Signals.{losses_or_none, other_names};

use crate::map::signals::push_signal;
use crate::map::source::{Signal, Signals};
use base_memory::Stopped;
use file_document::keys::{only, table_of};
use file_document::{DocumentFault, Path};
use model_line::{Line, Name, Terminal, What};
use std::alloc::{AllocError, Global};
use toml::{Table, Value};

// The names of terminals.
fn names(alloc: Global, terminals: &[Terminal]) -> Result<Vec<Name>, AllocError>
    ensures names { IfOk result (λ v. v.items ≡ names_of terminals.now) }
    ensures many { IfOk result (λ v. length v.items ≡ length terminals.now) }
{
    terminals.iter().map(|t| t.name).collect(alloc)
}

// The names of the other terminals.
fn other_names(alloc: Global, line: &Line, k: u32) -> Result<Vec<Name>, AllocError>
    requires { k < length line.now.terminals.items }
    ensures { IfOk result (λ v. v.items ≡ other_names line.now k) }
{
    let mut names = names(alloc, &line.terminals)?;
    names.remove(k as usize);
    Ok(names)
}

// The loss of the channel from a terminal to terminal k, under its name.
fn push_loss(
    alloc: Global,
    path: Path,
    name: &Name,
    channel: Option<u32>,
    table: &Table,
    signals: &mut Signals,
) -> Result<(), Stopped<DocumentFault>>
    requires { is_plain_name name.now ≡ true }
    ensures { Becomes result (signals_values signals.new)
        (loss_under path name.now channel (table_view table.now)
        (signals_values signals.old)) }
{
    match channel {
        Some(c) => {
            let signal = Signal::Shown(What::Loss(c));
            push_signal(alloc, path, name.plain_text(), signal, table, signals)
        }
        None => Ok(()),
    }
}

// Those from each terminal.
fn push_from(
    alloc: Global,
    line: &Line,
    path: Path,
    k: u32,
    table: &Table,
    terminals: &[Terminal],
    signals: &mut Signals,
) -> Result<(), Stopped<DocumentFault>>
    requires plain { are_plain_names terminals.now ≡ true }
    requires few { length terminals.now ≤ 3 }
    ensures { Becomes result (signals_values signals.new)
        (losses_from line.now path k (table_view table.now) 0 terminals.now
        (signals_values signals.old)) }
{
    for (j, terminal) in terminals.iter().enumerate() {
        let channel = line.channel_of(j as u32, k);
        push_loss(alloc, path, &terminal.name, channel, table, signals)?;
    }
    Ok(())
}

#[tactic(auto, unfolding(crate::specs::map::Signals::losses_in))]
fn push_table(
    alloc: Global,
    line: &Line,
    path: Path,
    k: u32,
    value: &Value,
    signals: &mut Signals,
) -> Result<(), Stopped<DocumentFault>>
    requires { k < length line.now.terminals.items }
    ensures { Becomes result (signals_values signals.new)
        (losses_in line.now path k (view value.now) (signals_values signals.old)) }
{
    let table = table_of(path, value)?;
    let names = other_names(alloc, line, k)?;
    only(path, &[], &names, table)?;
    push_from(alloc, line, path, k, table, &line.terminals, signals)
}

/// The channels to terminal k whose loss is told, in the order of the terminals that send.
pub fn push_losses(
    alloc: Global,
    line: &Line,
    path: Path,
    k: u32,
    value: Option<&Value>,
    signals: &mut Signals,
) -> Result<(), Stopped<DocumentFault>>
    requires { k < length line.now.terminals.items }
    ensures { Becomes result (signals_values signals.new)
        (losses_or_none line.now path k (option_map (λ v. view v.now) value.entry)
        (signals_values signals.old)) }
{
    match value {
        Some(value) => push_table(alloc, line, path, k, value, signals),
        None => Ok(()),
    }
}
