//! The canonical table of a line.

ghost use Rattle.std.specs.Prelude.{◌≡◌, ◌<◌, ◌≤◌, true, pos, IfOk, OnOk, length};
ghost use Rattle.std.specs.Prelude.{get_or, codes, ◌∷◌, []};
ghost use Rattle.toml.specs.{Data.table, Data.string, Data.integer, Data.array};
ghost use Rattle.toml.specs.View.{view, table_view, items_of};
ghost use Rattle.model_line.specs.{PlainNames.is_plain_name, ParamNames.name_at};
ghost use Rattle.model_line.specs.declared.line.Owner.TheVariants as owner;
ghost use Rattle.file_line.specs.Canonical.{put_member, put_all, terminal_members, terminals_data};
ghost use Rattle.file_line.specs.Canonical.{put_times, setting_pair, channel_members, channels_data};
ghost use Rattle.file_line.specs.Canonical.{scheme_text, head_pairs, table_pairs, canonical_in};
ghost use Rattle.model_line.specs.Settings.{receiver_settings};
ghost use Rattle.model_line.specs.declared.line.Setting.TheVariants.{Delay};

use crate::table::{OwnerTimes, put};
use model_line::{
    Channel, Line, Memory, Name, Owner, Scheme, Setting, Terminal, groups_of_terminal,
    receiver_settings,
};
use std::alloc::Global;
use toml::{Table, Value};

fn put_text(alloc: Global, table: &mut Table, key: &str, text: &str) -> Result<(), Memory>
    ensures { OnOk result
        (table_view table.new ≡ put_member key.now (string text.now) (table_view table.old)) }
{
    let value = Value::string(alloc, text)?;
    put(alloc, table, key, value)
}

fn put_number(alloc: Global, table: &mut Table, key: &str, number: u32) -> Result<(), Memory>
    ensures { OnOk result
        (table_view table.new
        ≡ put_member key.now (integer (pos number)) (table_view table.old)) }
{
    put(alloc, table, key, Value::Integer(i64::from(number)))
}

// The table of terminal k.
fn terminal_table(
    alloc: Global,
    unit: u32,
    line: &Line,
    k: u32,
    terminal: Terminal,
) -> Result<Value, Memory>
    requires exists { k < length line.now.terminals.items }
    requires few { unit ≤ 1000000 }
    requires plain { is_plain_name terminal.name ≡ true }
    ensures { IfOk result (λ v. view v ≡ table (terminal_members unit line.now k terminal)) }
{
    let times = OwnerTimes {
        alloc,
        unit,
        line,
        owner: Owner::Terminal(k),
    };
    let mut table = Table::new(alloc);
    put_text(alloc, &mut table, "name", terminal.name.plain_text())?;
    times.put_groups(&groups_of_terminal(line.scheme, &terminal), &mut table)?;
    Ok(Value::Table(table))
}

// The name of a terminal as a text.
fn name_of(line: &Line, k: u32) -> &str
    requires { k < length line.now.terminals.items }
    ensures { result.now ≡ name_at line.now.terminals.items k }
{
    line.terminals[k as usize].name.plain_text()
}

// Puts the values of a channel between these terminals.
fn put_channel(times: &OwnerTimes, from: &str, to: &str, table: &mut Table) -> Result<(), Memory>
    ensures { OnOk result
        (table_view table.new
        ≡ put_times times.now.unit times.now.line.now times.now.owner
        (receiver_settings times.now.line.now.scheme)
        (put_all
        ((codes "from", string from.now) ∷ (codes "to", string to.now)
        ∷ setting_pair times.now.unit times.now.line.now times.now.owner Delay ∷ [])
        (table_view table.old))) }
{
    put_text(times.alloc, table, "from", from)?;
    put_text(times.alloc, table, "to", to)?;
    let delay = times.time(Setting::Delay)?;
    put(times.alloc, table, Setting::Delay.key(), delay)?;
    times.put_times(receiver_settings(times.line.scheme), table)
}

// The table of channel c.
fn channel_table(
    alloc: Global,
    unit: u32,
    line: &Line,
    c: u32,
    channel: Channel,
) -> Result<Value, Memory>
    requires exists { c < length line.now.channels.items }
    requires few { unit ≤ 1000000 }
    requires is { channel ≡ get_or line.now.channels.items c channel }
    ensures { IfOk result (λ v. view v ≡ table (channel_members unit line.now c channel)) }
{
    let times = OwnerTimes {
        alloc,
        unit,
        line,
        owner: Owner::Channel(c),
    };
    let mut table = Table::new(alloc);
    let from = name_of(line, channel.from);
    let to = name_of(line, channel.to);
    put_channel(&times, from, to, &mut table)?;
    Ok(Value::Table(table))
}

// Puts the tables of the terminals.
fn put_terminals(alloc: Global, unit: u32, line: &Line, table: &mut Table) -> Result<(), Memory>
    requires { unit ≤ 1000000 }
    ensures { OnOk result
        (table_view table.new
        ≡ put_member (codes "terminal") (array (items_of (terminals_data unit line.now)))
        (table_view table.old)) }
{
    let mut tables = Vec::new(alloc);
    for k in 0..line.terminals.len() {
        tables.push(terminal_table(alloc, unit, line, k as u32, line.terminals[k])?)?;
    }
    put(alloc, table, "terminal", Value::Array(tables))
}

// Puts the tables of the channels.
fn put_channels(alloc: Global, unit: u32, line: &Line, table: &mut Table) -> Result<(), Memory>
    requires { unit ≤ 1000000 }
    ensures { OnOk result
        (table_view table.new
        ≡ put_member (codes "channel") (array (items_of (channels_data unit line.now)))
        (table_view table.old)) }
{
    let mut tables = Vec::new(alloc);
    for c in 0..line.channels.len() {
        tables.push(channel_table(alloc, unit, line, c as u32, line.channels[c])?)?;
    }
    put(alloc, table, "channel", Value::Array(tables))
}

fn text_of_scheme(scheme: Scheme) -> &'static str
    ensures { result.now ≡ scheme_text scheme }
{
    match scheme {
        Scheme::Pott => "pott",
        Scheme::Putt => "putt",
        Scheme::Dcb => "dcb",
        Scheme::Dcub => "dcub",
        Scheme::Dtt => "dtt",
    }
}

// The values at the top.
fn put_head(alloc: Global, version: u32, line: &Line, table: &mut Table) -> Result<(), Memory>
    ensures { OnOk result
        (table_view table.new
        ≡ put_all (head_pairs version line.now) (table_view table.old)) }
{
    put_number(alloc, table, "version", version)?;
    put_number(alloc, table, "tick_us", line.tick_us)?;
    put_number(alloc, table, "horizon", line.horizon)?;
    put_text(alloc, table, "scheme", text_of_scheme(line.scheme))?;
    put(alloc, table, "zone1_trip", Value::Boolean(line.zone1_trip))
}

// The values at the top, and the tables of the terminals and of the channels.
fn put_line(
    alloc: Global,
    version: u32,
    unit: u32,
    line: &Line,
    table: &mut Table,
) -> Result<(), Memory>
    requires { unit ≤ 1000000 }
    ensures { OnOk result
        (table_view table.new
        ≡ put_all (table_pairs unit line.now)
        (put_all (head_pairs version line.now) (table_view table.old))) }
{
    put_head(alloc, version, line, table)?;
    put_terminals(alloc, unit, line, table)?;
    put_channels(alloc, unit, line, table)
}

/// The canonical table of a line, with times in units.
#[tactic(auto, unfolding(crate::specs::Canonical::canonical_in))]
pub fn canonical(alloc: Global, version: u32, unit: u32, line: &Line) -> Result<Table, Memory>
    requires { unit ≤ 1000000 }
    ensures { IfOk result (λ t. table_view t ≡ canonical_in version unit line.now) }
{
    let mut table = Table::new(alloc);
    put_line(alloc, version, unit, line, &mut table)?;
    Ok(table)
}
