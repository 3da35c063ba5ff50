//! The names of a line's parameters, in order.

ghost use Rattle.std.specs.Prelude.{◌≡◌, ◌≤◌, ◌<◌, ◌++◌, ◌+◌, take, length, map, IsTrue, OnOk};
ghost use Rattle.std.specs.Prelude.{IfOk};
ghost use Rattle.std.specs.List.{flat_map};
ghost use Rattle.model_line.specs.ParamNames.{dotted, pair_name, param_name, terminal_names};
ghost use Rattle.model_line.specs.ParamNames.{channel_names};
ghost use Rattle.model_line.specs.Channels.{AreChannels};
ghost use Rattle.model_line.specs.{Settings.line_settings, Terminals.are_plain_names};

use crate::line::{Channel, Scheme, Setting, Terminal};
use crate::name::Name;
use crate::settings::{groups_of_channel, groups_of_terminal};
use base_memory::Memory;
use std::alloc::Global;

/// The name of each parameter.
pub fn param_names(
    alloc: Global,
    scheme: Scheme,
    terminals: &[Terminal],
    channels: &[Channel],
) -> Result<Vec<Name>, Memory>
    requires plain { IsTrue (are_plain_names terminals.now) }
    requires pairs { AreChannels (length terminals.now) channels.now }
    ensures { IfOk result (λ names. names.items
        ≡ map (param_name terminals.now channels.now)
        (line_settings scheme terminals.now channels.now)) }
{
    let mut names = Vec::new(alloc);
    push_terminals(&mut names, scheme, terminals)?;
    push_channels(&mut names, scheme, terminals, channels)?;
    Ok(names)
}

fn push_terminals(
    names: &mut Vec<Name>,
    scheme: Scheme,
    terminals: &[Terminal],
) -> Result<(), Memory>
    requires { IsTrue (are_plain_names terminals.now) }
    ensures { OnOk result (names.new.items
        ≡ names.old.items ++ terminal_names scheme terminals.now) }
{
    for terminal in terminals {
        let groups = groups_of_terminal(scheme, terminal);
        push_groups(names, terminal.name.bytes(), &groups)?;
    }
    Ok(())
}

fn push_channels(
    names: &mut Vec<Name>,
    scheme: Scheme,
    terminals: &[Terminal],
    channels: &[Channel],
) -> Result<(), Memory>
    requires plain { IsTrue (are_plain_names terminals.now) }
    requires pairs { AreChannels (length terminals.now) channels.now }
    ensures { OnOk result (names.new.items
        ≡ names.old.items ++ channel_names scheme terminals.now channels.now) }
{
    for channel in channels {
        let owner = channel_name(terminals, *channel);
        push_groups(names, owner.bytes(), &groups_of_channel(scheme))?;
    }
    Ok(())
}

// A name for each setting of an owner.
fn push_groups(names: &mut Vec<Name>, owner: &[u8], groups: &[&[Setting]]) -> Result<(), Memory>
    requires { length owner.now ≤ 33 }
    ensures { OnOk result (names.new.items
        ≡ names.old.items
        ++ map (dotted owner.now) (flat_map (λ group. group.now) groups.now)) }
{
    for group in groups {
        push_names(names, owner, group)?;
    }
    Ok(())
}

// The same for the settings of one group.
fn push_names(names: &mut Vec<Name>, owner: &[u8], settings: &[Setting]) -> Result<(), Memory>
    requires { length owner.now ≤ 33 }
    ensures { OnOk result (names.new.items
        ≡ names.old.items ++ map (dotted owner.now) settings.now) }
{
    for setting in settings {
        names.push(name_of(owner, *setting))?;
    }
    Ok(())
}

// An owner's name with a dot and a setting.
fn name_of(owner: &[u8], setting: Setting) -> Name
    requires { length owner.now ≤ 33 }
    ensures { result ≡ dotted owner.now setting }
{
    let (table, key) = (setting.table().as_bytes(), setting.key().as_bytes());
    if table.is_empty() {
        return joined(owner, b".", key);
    }
    let outer = joined(owner, b".", table);
    joined(outer.bytes(), b".", key)
}

/// The name of a channel, as `A>B`.
pub fn channel_name(terminals: &[Terminal], channel: Channel) -> Name
    requires plain { IsTrue (are_plain_names terminals.now) }
    requires from { channel.from < length terminals.now }
    requires to { channel.to < length terminals.now }
    ensures name { result ≡ pair_name terminals.now channel }
    ensures short { length result ≤ 33 }
{
    let from = &terminals[channel.from as usize];
    let to = &terminals[channel.to as usize];
    joined(from.name.bytes(), b">", to.name.bytes())
}

// The name of three pieces.
fn joined(left: &[u8], middle: &[u8; 1], right: &[u8]) -> Name
    requires { length left.now + length right.now ≤ 60 }
    ensures { result ≡ left.now ++ (middle.now ++ right.now) }
{
    let len = left.len() + 1 + right.len();
    let mut bytes = [0; 64];
    put(&mut bytes, 0, left);
    put(&mut bytes, left.len(), middle);
    put(&mut bytes, left.len() + 1, right);
    match Name::from_bytes(&bytes[..len]) {
        Some(name) => name,
        None => unreachable!(),
    }
}

// Writes bytes behind the first `len`.
fn put(bytes: &mut [u8; 64], len: usize, more: &[u8])
    requires { len + length more.now ≤ 64 }
    ensures { take (len + length more.now) bytes.new ≡ take len bytes.old ++ more.now }
{
    bytes[len..len + more.len()].copy_from_slice(more);
}
