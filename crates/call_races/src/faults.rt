//! What is told of faults.

ghost use Rattle.std.specs.Prelude.{◌≡◌, ◌<◌, ◌^◌, ◌||◌, length, min, IfOk};
ghost use Rattle.model_line.specs.Parameters.{terminal_count};
ghost use Rattle.call_races.specs.Fault.{IsFault};
ghost use Rattle.call_races.specs.Races.{Adds, AtTerminals, OfFault, OfFaults};
ghost use Rattle.call_races.specs.Races.{is_external as is_external_of};

use crate::fault::Fault;
use crate::terminal::push_terminal;
use file_study::sweeps::Group;
use judge_races::all_waves;
use model_line::{Kind, Memory, Script};
use net_gates::Compiled;
use std::alloc::Global;

/// Appends the records of faults whose scripts stand one after another: whether a trip may be set.
pub fn push_faults(
    alloc: Global,
    text: &mut Vec<u8>,
    compiled: &Compiled<'_>,
    groups: &[Group],
    scripts: &[Script],
) -> Result<bool, Memory>
    requires { length scripts.now < 2 ^ 32 }
    ensures { IfOk result (Adds (OfFaults compiled.now.line.now groups.now scripts.now)
        text.old.items text.new.items) }
{
    match groups {
        [] => Ok(false),
        [group, more @ ..] => {
            let own = own_count(group, scripts);
            let first = push_fault(alloc, text, compiled, group, &scripts[..own])?;
            let others = push_faults(alloc, text, compiled, more, &scripts[own..])?;
            Ok(either(first, others))
        }
    }
}

// How many of these scripts are those of a fault.
fn own_count(group: &Group, scripts: &[Script]) -> usize
    ensures { result ≡ min (length group.now.swept.items) (length scripts.now) }
{
    group.swept.len().min(scripts.len())
}

fn either(first: bool, second: bool) -> bool
    ensures { result ≡ first || second }
{
    first || second
}

// Appends the records of a fault with these scripts, if it is external.
fn push_fault(
    alloc: Global,
    text: &mut Vec<u8>,
    compiled: &Compiled<'_>,
    group: &Group,
    scripts: &[Script],
) -> Result<bool, Memory>
    requires { length scripts.now < 2 ^ 32 }
    ensures { IfOk result (Adds (OfFault compiled.now.line.now group.now scripts.now)
        text.old.items text.new.items) }
{
    if is_external(scripts) {
        push_external(alloc, text, compiled, group, scripts)
    } else {
        Ok(false)
    }
}

// Appends the records of an external fault with these scripts.
fn push_external(
    alloc: Global,
    text: &mut Vec<u8>,
    compiled: &Compiled<'_>,
    group: &Group,
    scripts: &[Script],
) -> Result<bool, Memory>
    requires { length scripts.now < 2 ^ 32 }
    ensures { IfOk result (Adds (AtTerminals compiled.now.line.now group.now scripts.now
        (terminal_count compiled.now.line.now)) text.old.items text.new.items) }
{
    let waves = all_waves(alloc, compiled, scripts)?;
    let fault = Fault {
        compiled: *compiled,
        group,
        scripts,
        waves: &waves,
    };
    let trips = push_terminals(alloc, text, &fault)?;
    Ok(trips)
}

fn is_external(scripts: &[Script]) -> bool
    ensures { result ≡ is_external_of scripts.now }
{
    match scripts.first() {
        Some(script) => matches!(script.kind, Kind::External),
        None => false,
    }
}

// Appends the records of a fault at each terminal.
fn push_terminals(alloc: Global, text: &mut Vec<u8>, fault: &Fault<'_>) -> Result<bool, Memory>
    requires { IsFault fault.now }
    ensures { IfOk result (Adds (AtTerminals fault.now.compiled.line.now fault.now.group.now
        fault.now.scripts.now (terminal_count fault.now.compiled.line.now)) text.old.items
        text.new.items) }
{
    let mut trips = false;
    for k in 0..fault.compiled.line.terminals.len() {
        let here = push_terminal(alloc, text, fault, k as u32)?;
        trips = either(trips, here);
    }
    Ok(trips)
}
