//! The records of a fault at a terminal.

ghost use Rattle.std.specs.Prelude.{◌≡◌, ◌<◌, ◌++◌, ◌^◌, [], length, IfOk, OnOk};
ghost use Rattle.base_text.specs.lines.Milliseconds.{ticks_text};
ghost use Rattle.csv.specs.Writing.{row_text, default_writer};
ghost use Rattle.judge_races.specs.Gates.{AreIn};
ghost use Rattle.net_gates.specs.Formulas.{trees_of};
ghost use Rattle.call_races.specs.Fault.{AreAllIn, operands_of};
ghost use Rattle.call_races.specs.Rows.{each_rows, empty_record, race_record, races_header};
ghost use Rattle.call_races.specs.Rows.{races_rows, rows_or_none, trip_record, trip_rows};
ghost use Rattle.call_races.specs.Words.{marked_words};

use crate::words::push_marked;
use base_records::push_record;
use base_text::lines::push_ticks;
use file_study::sweeps::Group;
use itoa::Buffer;
use judge_races::{Race, Stretch};
use model_line::{Line, Memory, name_of_terminal};
use net_gates::{Compiled, GateId};
use std::alloc::Global;

/// Appends the header.
pub fn push_header(alloc: Global, text: &mut Vec<u8>) -> Result<(), Memory>
    ensures { OnOk result (text.new.items ≡ text.old.items ++ row_text default_writer races_header) }
{
    push_record(
        alloc,
        text,
        &[
            b"fault",
            b"terminal",
            b"ends",
            b"ends_ms",
            b"begins",
            b"begins_ms",
            b"spare_ms",
            b"place",
        ],
    )
}

// A time behind a sign.
fn time_text(alloc: Global, sign: &[u8], tick_us: u32, t: u32) -> Result<Vec<u8>, Memory>
    ensures { IfOk result (λ text. text.items ≡ sign.now ++ ticks_text tick_us t) }
{
    let mut text = Vec::from_slice(alloc, sign)?;
    push_ticks(&mut text, tick_us, t)?;
    Ok(text)
}

// The words of those operands that are marked.
fn marked_text(
    alloc: Global,
    compiled: &Compiled<'_>,
    marks: &[bool],
    ids: &[GateId],
) -> Result<Vec<u8>, Memory>
    requires { AreIn compiled.now.net.now.gates ids.now }
    ensures { IfOk result (λ text. text.items ≡ marked_words compiled.now.line.now [] marks.now
        (trees_of compiled.now.net.now.gates ids.now)) }
{
    let mut text = Vec::new(alloc);
    push_marked(&mut text, compiled, b"", marks, ids)?;
    Ok(text)
}

// Appends the record of a race of a conjunction.
#[tactic(auto, unfolding(crate::specs::Rows::race_record))]
fn push_race(
    alloc: Global,
    text: &mut Vec<u8>,
    compiled: &Compiled<'_>,
    group: &Group,
    k: u32,
    ids: &[GateId],
    race: &Race,
) -> Result<(), Memory>
    requires { AreIn compiled.now.net.now.gates ids.now }
    ensures { OnOk result (text.new.items ≡ text.old.items
        ++ row_text default_writer (race_record compiled.now.line.now group.now k
        (trees_of compiled.now.net.now.gates ids.now) race.now)) }
{
    let tick_us = compiled.line.tick_us;
    let lack = race.lack.saturating_sub(1);
    let ends = marked_text(alloc, compiled, &race.ends, ids)?;
    let begins = marked_text(alloc, compiled, &race.begins, ids)?;
    let ended = time_text(alloc, b"", tick_us, race.tick.saturating_sub(lack))?;
    let began = time_text(alloc, b"", tick_us, race.tick)?;
    let spare = time_text(alloc, b"", tick_us, lack)?;
    let mut place = Buffer::new();
    push_record(
        alloc,
        text,
        &[
            group.name.bytes(),
            name_of_terminal(compiled.line, k),
            ends.as_slice(),
            ended.as_slice(),
            begins.as_slice(),
            began.as_slice(),
            spare.as_slice(),
            place.format(race.place as usize + 1).as_bytes(),
        ],
    )
}

// Appends the records of the races of a conjunction.
fn push_races(
    alloc: Global,
    text: &mut Vec<u8>,
    compiled: &Compiled<'_>,
    group: &Group,
    k: u32,
    ids: &[GateId],
    races: &[Race],
) -> Result<(), Memory>
    requires { AreIn compiled.now.net.now.gates ids.now }
    ensures { OnOk result (text.new.items ≡ text.old.items
        ++ races_rows compiled.now.line.now group.now k
        (trees_of compiled.now.net.now.gates ids.now) races.now) }
{
    for race in races {
        push_race(alloc, text, compiled, group, k, ids, race)?;
    }
    Ok(())
}

/// Appends the records of the races of one conjunction after another.
pub fn push_each(
    alloc: Global,
    text: &mut Vec<u8>,
    compiled: &Compiled<'_>,
    group: &Group,
    k: u32,
    all: &[Vec<GateId>],
    races: &[Vec<Race>],
) -> Result<(), Memory>
    requires { AreAllIn compiled.now.net.now.gates all.now }
    ensures { OnOk result (text.new.items ≡ text.old.items
        ++ each_rows compiled.now.line.now group.now k
        (operands_of compiled.now.net.now.gates all.now) races.now) }
{
    match all {
        [] => Ok(()),
        [ids, all @ ..] => match races {
            [] => Ok(()),
            [first, races @ ..] => {
                push_races(alloc, text, compiled, group, k, ids, first)?;
                push_each(alloc, text, compiled, group, k, all, races)
            }
        },
    }
}

// Appends the record of a trip that may be set, of which these are the words of what begins.
#[tactic(auto, unfolding(crate::specs::Rows::trip_record))]
fn push_trip(
    alloc: Global,
    text: &mut Vec<u8>,
    line: &Line,
    group: &Group,
    k: u32,
    begins: Vec<u8>,
    place: usize,
    trip: Stretch,
) -> Result<(), Memory>
    requires { place < 2 ^ 32 }
    ensures { OnOk result (text.new.items ≡ text.old.items
        ++ row_text default_writer (trip_record line.now group.now k begins.items place trip)) }
{
    let began = time_text(alloc, b"", line.tick_us, trip.from)?;
    let spare = time_text(alloc, b"-", line.tick_us, trip.ticks)?;
    let mut number = Buffer::new();
    push_record(
        alloc,
        text,
        &[
            group.name.bytes(),
            name_of_terminal(line, k),
            b"",
            b"",
            begins.as_slice(),
            began.as_slice(),
            spare.as_slice(),
            number.format(place + 1).as_bytes(),
        ],
    )
}

/// Appends that record, if the trip may be set.
pub fn push_if_set(
    alloc: Global,
    text: &mut Vec<u8>,
    line: &Line,
    group: &Group,
    k: u32,
    begins: Vec<u8>,
    place: usize,
    trip: Option<Stretch>,
) -> Result<(), Memory>
    requires { place < 2 ^ 32 }
    ensures { OnOk result (text.new.items ≡ text.old.items
        ++ trip_rows line.now group.now k begins.items place trip) }
{
    match trip {
        Some(trip) => push_trip(alloc, text, line, group, k, begins, place, trip),
        None => Ok(()),
    }
}

// Appends the record of a terminal at which nothing races.
#[tactic(auto, unfolding(crate::specs::Rows::empty_record))]
fn push_empty(
    alloc: Global,
    text: &mut Vec<u8>,
    line: &Line,
    group: &Group,
    k: u32,
) -> Result<(), Memory>
    ensures { OnOk result (text.new.items ≡ text.old.items
        ++ row_text default_writer (empty_record line.now group.now k)) }
{
    push_record(
        alloc,
        text,
        &[
            group.name.bytes(),
            name_of_terminal(line, k),
            b"",
            b"",
            b"",
            b"",
            b"",
            b"",
        ],
    )
}

/// Rows, or the empty record where there are none.
pub fn rows_or_empty(
    alloc: Global,
    line: &Line,
    group: &Group,
    k: u32,
    rows: Vec<u8>,
) -> Result<Vec<u8>, Memory>
    ensures { IfOk result (λ all. all.items ≡ rows_or_none line.now group.now k rows.items) }
{
    let mut all = rows;
    if all.is_empty() {
        push_empty(alloc, &mut all, line, group, k)?;
    }
    Ok(all)
}
