//! What the line file and the map say.

ghost use Rattle.std.specs.Prelude.{◌≤◌, IfOk, IsTrue, length};
ghost use Rattle.file_line.specs.{LineFiles.line_of, Lines.line_values};
ghost use Rattle.file_records.specs.map.Maps.{map_of, map_values};
ghost use Rattle.model_line.specs.{Fits.deadline_fits, PlainNames.is_plain_name};
ghost use Rattle.call_records.specs.Faults.{line_refusal, map_refusal};
ghost use Rattle.call_records.specs.Read.{Reads};

use crate::asked::Asked;
use crate::halt::Halt;
use crate::refusal::{line_halt, map_halt};
use base_memory::Stopped;
use file_records::map::Map;
use model_line::Line;
use std::alloc::Global;

/// The line of a line file of that name.
pub fn read_line(alloc: Global, name: &str, bytes: &[u8]) -> Result<Line, Halt>
    ensures { Reads line_values (line_refusal name.now bytes.now) (line_of bytes.now) result }
{
    match file_line::read_line(alloc, bytes) {
        Ok(line) => Ok(line),
        Err(Stopped::Fault(fault)) => Err(line_halt(alloc, name, bytes, &fault)),
        Err(Stopped::Memory) => Err(Halt::Memory),
    }
}

/// The map of a line.
pub fn read_map(alloc: Global, line: &Line, asked: Asked<'_>) -> Result<Map, Halt>
    ensures reads { Reads map_values (map_refusal asked.entry.name.now asked.entry.bytes.now)
        (map_of line.now asked.entry.bytes.now) result }
    ensures few { IfOk result (λ m. length m.recorders.items ≤ 8) }
    ensures plain { IfOk result (λ m. IsTrue (is_plain_name m.script)) }
    ensures deadline { IfOk result (λ m. IsTrue (deadline_fits line.now.horizon m.kind m.deadline)) }
{
    match file_records::map::read_map(alloc, line, asked.bytes) {
        Ok(map) => Ok(map),
        Err(Stopped::Fault(fault)) => Err(map_halt(alloc, asked, &fault)),
        Err(Stopped::Memory) => Err(Halt::Memory),
    }
}
