//! The record file that records come to.

ghost use Rattle.std.specs.Prelude.{[], ◌∷◌, ◌≡◌, ◌<◌, ◌++◌, IfOk, OnOk, map};
ghost use Rattle.model_line.specs.Parameters.{terminal_count};
ghost use Rattle.file_tables.specs.script.Printed.{records_text};
ghost use Rattle.judge_match.specs.matching.Row.{header_record};
ghost use Rattle.file_records.specs.declared.map.source.Signal.TheVariants.{Key, Trip};
ghost use Rattle.file_records.specs.{tracks.Levels.is_on as is_signal_on, tracks.Tracks.track_values};
ghost use Rattle.file_records.specs.recorded.Changes.{change_at, head_record, record_text as text_of_record};
ghost use Rattle.file_records.specs.recorded.Changes.{terminal_changes, tick_changes};

use crate::map::Signal;
use crate::recorded::spans::was_on;
use crate::tracks::{Track, is_on};
use itoa::Buffer;
use model_line::{Line, Memory};
use run_changes::rows::level_word;
use std::alloc::Global;

/// The record file of the keys and trips that the tracks tell, under a head of that script.
pub fn record_text(
    alloc: Global,
    line: &Line,
    script: &[u8],
    tracks: &[Track],
) -> Result<Vec<u8>, Memory>
    ensures { IfOk result (λ v. v.items
        ≡ text_of_record script.now line.now (map track_values tracks.now)) }
{
    let mut text = Vec::new(alloc);
    push_front(alloc, &mut text, script)?;
    for t in 0..line.horizon {
        push_tick(alloc, &mut text, line, script, tracks, t)?;
    }
    Ok(text)
}

// The header and the head.
fn push_front(alloc: Global, text: &mut Vec<u8>, script: &[u8]) -> Result<(), Memory>
    ensures { OnOk result (text.new.items ≡ text.old.items
        ++ records_text (header_record ∷ head_record script.now ∷ [])) }
{
    push_record(
        alloc,
        text,
        b"script",
        b"tick",
        b"terminal",
        b"signal",
        b"level",
    )?;
    push_record(alloc, text, script, b"", b"", b"", b"")
}

// The changes of all terminals at a tick.
fn push_tick(
    alloc: Global,
    text: &mut Vec<u8>,
    line: &Line,
    script: &[u8],
    tracks: &[Track],
    t: u32,
) -> Result<(), Memory>
    ensures { OnOk result (text.new.items ≡ text.old.items ++ records_text
        (tick_changes script.now line.now (map track_values tracks.now) t)) }
{
    for k in 0..line.terminals.len() {
        push_terminal(alloc, text, line, script, tracks, t, k)?;
    }
    Ok(())
}

// The changes of a terminal at a tick.
fn push_terminal(
    alloc: Global,
    text: &mut Vec<u8>,
    line: &Line,
    script: &[u8],
    tracks: &[Track],
    t: u32,
    k: usize,
) -> Result<(), Memory>
    requires { k < terminal_count line.now }
    ensures { OnOk result (text.new.items ≡ text.old.items ++ records_text
        (terminal_changes script.now line.now (map track_values tracks.now) t k)) }
{
    let name = line.terminals[k].name;
    let place = Row {
        script,
        terminal: name.bytes(),
        t,
    };
    push_signal(alloc, text, &place, b"key", tracks, Signal::Key(k as u32))?;
    push_signal(alloc, text, &place, b"trip", tracks, Signal::Trip(k as u32))
}

// What a change of a terminal's signals at a tick begins with.
#[derive(Clone, Copy)]
struct Row<'a> {
    script: &'a [u8],
    terminal: &'a [u8],
    t: u32,
}

// The change of a signal at a tick, if there is one.
fn push_signal(
    alloc: Global,
    text: &mut Vec<u8>,
    row: &Row<'_>,
    word: &[u8],
    tracks: &[Track],
    signal: Signal,
) -> Result<(), Memory>
    ensures { OnOk result (text.new.items ≡ text.old.items ++ records_text
        (change_at row.now.script.now row.now.t row.now.terminal.now word.now
        (is_signal_on (map track_values tracks.now) signal))) }
{
    let level = is_on(tracks, signal, row.t);
    if was_on(tracks, signal, row.t) == level {
        return Ok(());
    }
    let mut tick = Buffer::new();
    let tick = tick.format(row.t).as_bytes();
    push_record(
        alloc,
        text,
        row.script,
        tick,
        row.terminal,
        word,
        level_word(level),
    )
}

// A record of five fields.
fn push_record<'a>(
    alloc: Global,
    text: &mut Vec<u8>,
    script: &'a [u8],
    tick: &'a [u8],
    terminal: &'a [u8],
    signal: &'a [u8],
    level: &'a [u8],
) -> Result<(), Memory>
    ensures { OnOk result (text.new.items ≡ text.old.items ++ records_text
        ((script.now ∷ tick.now ∷ terminal.now ∷ signal.now ∷ level.now ∷ []) ∷ [])) }
{
    base_records::push_record(alloc, text, &[script, tick, terminal, signal, level])
}
