//! Reading a map.

ghost use Rattle.std.specs.Prelude.{◌<◌, ◌^◌, map};
ghost use Rattle.toml.specs.View.{table_view};
ghost use Rattle.base_memory.specs.Gives.{Gives};
ghost use Rattle.file_records.specs.map.Recorders.{recorder_values};
ghost use Rattle.file_records.specs.map.Maps.{map_values, recorders_of, map_in, map_of};

use crate::map::head::{deadline, kind, script, start, top_keys};
use crate::map::map::Map;
use crate::map::recorder::Recorder;
use crate::map::recorders::recorders_in;
use base_memory::Stopped;
use file_document::keys::{counted, items, number, only, open};
use file_document::{DocumentFault, Path};
use model_line::Line;
use std::alloc::Global;
use toml::Table;

// The recorders, 1 to 8.
#[tactic(auto, unfolding(crate::specs::map::Maps::recorders_of))]
fn recorders(
    alloc: Global,
    line: &Line,
    start: u128,
    top: &Table,
) -> Result<Vec<Recorder>, Stopped<DocumentFault>>
    requires { start < 2 ^ 80 }
    ensures { Gives (λ v. map recorder_values v.items) result
        (recorders_of line.now start (table_view top.now)) }
{
    let path = Path::root().key(b"recorder");
    let items = counted(path, 1, 8, items(Path::root(), "recorder", top)?)?;
    recorders_in(alloc, line, start, path, items)
}

#[tactic(auto, unfolding(crate::specs::map::Maps::map_in))]
fn map_in(alloc: Global, line: &Line, top: &Table) -> Result<Map, Stopped<DocumentFault>>
    ensures { Gives map_values result (map_in line.now (table_view top.now)) }
{
    number(Path::root(), "version", 1, 1, top)?;
    let kind = kind(top)?;
    only(Path::root(), top_keys(kind), &[], top)?;
    let script = script(top)?;
    let deadline = deadline(line, kind, top)?;
    let start = start(top)?;
    let recorders = recorders(alloc, line, start, top)?;
    Ok(Map {
        script,
        kind,
        deadline,
        recorders,
    })
}

/// The map of these bytes, for a line, or its first fault.
///
/// `NotToml` comes where the bytes are no TOML document. Every other fault tells the first
/// place, in the order in which a map is read, that is not as it has to be.
#[tactic(auto, unfolding(crate::specs::map::Maps::map_of))]
pub fn read_map(alloc: Global, line: &Line, bytes: &[u8]) -> Result<Map, Stopped<DocumentFault>>
    ensures { Gives map_values result (map_of line.now bytes.now) }
{
    let table = open(alloc, bytes)?;
    map_in(alloc, line, &table)
}
