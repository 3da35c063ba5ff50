//! Why the line file or the map is refused, or a file is too long.

ghost use Rattle.std.specs.Prelude.{◌≡◌, IfOk, map};
ghost use Rattle.call_records.specs.Faults.{line_refusal, map_refusal, script_refusal, script_words};
ghost use Rattle.call_records.specs.Faults.{too_long as too_long_of, untold_refusal, untold_words};
ghost use Rattle.call_records.specs.{Halts.Refuses, Lines.IsWorded, Lines.worded};

use crate::asked::Asked;
use crate::halt::Halt;
use base_memory::Memory;
use base_text::pieces::text_of;
use call_refused::places::place_of_key;
use call_refused::told::{push_place, push_within};
use call_refused::{refused_line, refused_map};
use file_document::DocumentFault;
use file_records::map::Signal;
use file_records::recorded::NoScript;
use model_line::{Line, name_of_terminal};
use std::alloc::Global;

/// A file of that name has more bytes than the limit.
pub fn too_long(alloc: Global, name: &str, limit: u32) -> Halt
    ensures { Refuses (too_long_of name.now) result }
{
    match call_refused::too_long(alloc, name, &[], &(limit as usize)) {
        Ok(line) => Halt::Refused(line),
        Err(_) => Halt::Memory,
    }
}

/// The line file is refused.
pub fn line_halt(alloc: Global, name: &str, bytes: &[u8], fault: &DocumentFault) -> Halt
    ensures { Refuses (line_refusal name.now bytes.now fault.now) result }
{
    match refused_line(alloc, name, bytes, fault) {
        Ok(line) => Halt::Refused(line),
        Err(_) => Halt::Memory,
    }
}

/// The map is refused.
pub fn map_halt(alloc: Global, asked: Asked<'_>, fault: &DocumentFault) -> Halt
    ensures { Refuses (map_refusal asked.entry.name.now asked.entry.bytes.now fault.now) result }
{
    match refused_map(alloc, asked.name, asked.bytes, fault) {
        Ok(line) => Halt::Refused(line),
        Err(_) => Halt::Memory,
    }
}

// The line of these words, at the key of this path of the map.
fn worded_line(
    alloc: Global,
    asked: Asked<'_>,
    path: &[u8],
    words: &[&[u8]],
) -> Result<Vec<u8>, Memory>
    ensures { IfOk result (λ line. IsWorded asked.entry.name.now asked.entry.bytes.now
        (map (λ piece. piece.now) words.now) line.items) }
{
    let at = place_of_key(alloc, asked.bytes, path)?;
    let mut line = Vec::new(alloc);
    push_place(&mut line, asked.name, asked.bytes, at)?;
    push_within(&mut line, text_of(alloc, words)?.as_slice())?;
    line.push(b'\n')?;
    Ok(line)
}

/// The map is refused in these words, at the key of this path.
pub fn worded_halt(alloc: Global, asked: Asked<'_>, path: &[u8], words: &[&[u8]]) -> Halt
    ensures { Refuses (worded asked.entry.name.now asked.entry.bytes.now (map (λ piece. piece.now) words.now))
        result }
{
    match worded_line(alloc, asked, path, words) {
        Ok(line) => Halt::Refused(line),
        Err(_) => Halt::Memory,
    }
}

/// No recorder tells a key or a trip.
pub fn untold_halt(alloc: Global, asked: Asked<'_>, line: &Line, signal: Signal) -> Halt
    ensures { Refuses (untold_refusal asked.entry.name.now asked.entry.bytes.now line.now signal) result }
{
    match signal {
        Signal::Key(k) => worded_halt(
            alloc,
            asked,
            b"recorder[0]",
            &[
                b"no recorder tells the key of ",
                name_of_terminal(line, k),
                b"; write key = \"ID\" in a [[recorder]] of it",
            ],
        ),
        Signal::Trip(k) => worded_halt(
            alloc,
            asked,
            b"recorder[0]",
            &[
                b"no recorder tells the trip of ",
                name_of_terminal(line, k),
                b"; write trip = \"ID\" in a [[recorder]] of it",
            ],
        ),
        Signal::Shown(_) => worded_halt(alloc, asked, b"recorder[0]", &[]),
    }
}

/// There is no script.
pub fn no_script_halt(alloc: Global, asked: Asked<'_>, why: NoScript) -> Halt
    ensures { Refuses (script_refusal asked.entry.name.now asked.entry.bytes.now why) result }
{
    match why {
        NoScript::TooMany => worded_halt(
            alloc,
            asked,
            b"recorder[0]",
            &[
                b"the script has more than 200 rows; ",
                b"write fewer sources, or the line with longer ticks",
            ],
        ),
        NoScript::Nothing => worded_halt(
            alloc,
            asked,
            b"start",
            &[
                b"nothing is seen at any tick, and no channel is lost; ",
                b"write another start or shift_us, or mend the rates or the factor of the stamps: ",
                b"comtrade show tells when each record begins and ends",
            ],
        ),
    }
}
