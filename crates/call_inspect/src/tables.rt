//! Of scripts, timings and maps of records, which a line is needed for.

ghost use Rattle.std.specs.Prelude.{◌≤◌, IfOk, length};
ghost use Rattle.call_lint.specs.lint.Outcomes.{IsSaid};
ghost use Rattle.call_inspect.specs.Found.{Against, IsMapFound, IsScriptsFound, IsTimingsFound};
ghost use Rattle.call_inspect.specs.Grounds.{scripts_in};

use crate::alone::without_line;
use crate::ground::{Ground, LineGround};
use base_memory::{Memory, Stopped};
use call_lint::lint::{Linted, Names, lint_scripts_file};
use call_refused::{refused_map, refused_timings};
use file_records::map::read_map;
use file_tables::timing::read_timings;
use std::alloc::Global;

/// What is found in a file of scripts.
pub fn scripts_found(
    alloc: Global,
    ground: &Ground<'_, '_>,
    name: &str,
    bytes: &[u8],
) -> Result<Linted, Memory>
    ensures found { IfOk result (λ linted.
        Against (IsScriptsFound bytes.now) ground.now linted.outcome) }
    ensures said { IfOk result (λ linted.
        IsSaid name.now bytes.now linted.outcome linted.text.items) }
{
    match ground {
        Ground::Nothing => without_line(alloc, name, bytes),
        Ground::Refused => Ok(Linted::clean(alloc)),
        Ground::Line(own) => {
            let names = Names {
                line: own.name,
                scripts: name,
            };
            lint_scripts_file(alloc, &own.line, own.bytes, bytes, names)
        }
    }
}

/// What is found in a file of timings.
pub fn timings_found(
    alloc: Global,
    ground: &Ground<'_, '_>,
    name: &str,
    bytes: &[u8],
) -> Result<Linted, Memory>
    requires { length bytes.now ≤ 4194304 }
    ensures found { IfOk result (λ linted.
        Against (IsTimingsFound bytes.now) ground.now linted.outcome) }
    ensures said { IfOk result (λ linted.
        IsSaid name.now bytes.now linted.outcome linted.text.items) }
{
    match ground {
        Ground::Nothing => without_line(alloc, name, bytes),
        Ground::Refused => Ok(Linted::clean(alloc)),
        Ground::Line(own) => timings_of(alloc, own, name, bytes),
    }
}

fn timings_of(
    alloc: Global,
    own: &LineGround<'_, '_>,
    name: &str,
    bytes: &[u8],
) -> Result<Linted, Memory>
    requires { length bytes.now ≤ 4194304 }
    ensures found { IfOk result (λ linted.
        IsTimingsFound bytes.now own.now.line (scripts_in own.now.scripts) linted.outcome) }
    ensures said { IfOk result (λ linted.
        IsSaid name.now bytes.now linted.outcome linted.text.items) }
{
    match read_timings(alloc, &own.line, bytes) {
        Ok(_) => Ok(Linted::clean(alloc)),
        Err(Stopped::Memory) => Err(Memory),
        Err(Stopped::Fault(fault)) => Ok(Linted::refused(refused_timings(
            alloc, name, bytes, &fault,
        )?)),
    }
}

/// What is found in a map of records.
pub fn map_found(
    alloc: Global,
    ground: &Ground<'_, '_>,
    name: &str,
    bytes: &[u8],
) -> Result<Linted, Memory>
    ensures found { IfOk result (λ linted.
        Against (IsMapFound bytes.now) ground.now linted.outcome) }
    ensures said { IfOk result (λ linted.
        IsSaid name.now bytes.now linted.outcome linted.text.items) }
{
    match ground {
        Ground::Nothing => without_line(alloc, name, bytes),
        Ground::Refused => Ok(Linted::clean(alloc)),
        Ground::Line(own) => map_of(alloc, own, name, bytes),
    }
}

fn map_of(
    alloc: Global,
    own: &LineGround<'_, '_>,
    name: &str,
    bytes: &[u8],
) -> Result<Linted, Memory>
    ensures found { IfOk result (λ linted.
        IsMapFound bytes.now own.now.line (scripts_in own.now.scripts) linted.outcome) }
    ensures said { IfOk result (λ linted.
        IsSaid name.now bytes.now linted.outcome linted.text.items) }
{
    match read_map(alloc, &own.line, bytes) {
        Ok(_map) => {}
        Err(Stopped::Memory) => return Err(Memory),
        Err(Stopped::Fault(fault)) => {
            return Ok(Linted::refused(refused_map(alloc, name, bytes, &fault)?));
        }
    }
    Ok(Linted::clean(alloc))
}
