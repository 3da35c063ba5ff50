//! The rows of changes, as text.

ghost use Rattle.std.specs.Prelude.{◌≡◌, ◌++◌, ◌<◌, ◌+◌, length, OnOk};
ghost use Rattle.run_changes.specs.rows.PlayRows.{level_word as word_of_level, row_fields, row_text};
ghost use Rattle.run_changes.specs.rows.PlayRows.{change_row, signal_row};
ghost use Rattle.run_changes.specs.rows.StandingLaws.{Stands};
ghost use Rattle.run_changes.specs.changes.PlayedTracks.{is_on};

use crate::rows::standing::Standing;
use base_text::pieces::push_pieces;
use itoa::Buffer;
use model_line::{Memory, Name};
use run_signal::{Level, Signal, Track};

/// What all rows of one run begin with.
#[derive(Clone, Copy)]
pub struct RowNames {
    pub timing: Name,
    pub script: Name,
}

/// `1` or `0`.
pub fn level_word(level: bool) -> &'static [u8]
    ensures { result.now ≡ word_of_level level }
{
    if level { b"1" } else { b"0" }
}

// Appends the row of these fields.
fn push_fields<'a>(
    text: &mut Vec<u8>,
    timing: &'a [u8],
    script: &'a [u8],
    tick: &'a [u8],
    terminal: &'a [u8],
    signal: &'a [u8],
    level: bool,
) -> Result<(), Memory>
    ensures { OnOk result (text.new.items
        ≡ text.old.items
        ++ row_fields timing.now script.now tick.now terminal.now signal.now level) }
{
    let level: &'a [u8] = level_word(level);
    let comma: &'a [u8] = b",";
    let end: &'a [u8] = b"\n";
    let pieces: [&'a [u8]; 12] = [
        timing, comma, script, comma, tick, comma, terminal, comma, signal, comma, level, end,
    ];
    push_pieces(text, &pieces)
}

// Appends the row of a change to that level.
fn push_row(
    text: &mut Vec<u8>,
    names: &RowNames,
    t: u32,
    terminal: Name,
    signal: &[u8],
    level: bool,
) -> Result<(), Memory>
    ensures { OnOk result (text.new.items
        ≡ text.old.items
        ++ row_text names.now.timing names.now.script t terminal signal.now level) }
{
    let mut digits = Buffer::new();
    let tick = digits.format(t).as_bytes();
    push_fields(
        text,
        names.timing.bytes(),
        names.script.bytes(),
        tick,
        terminal.bytes(),
        signal,
        level,
    )
}

// Appends the row of a signal where its level differs from that before.
fn push_change(
    text: &mut Vec<u8>,
    names: &RowNames,
    t: u32,
    terminal: Name,
    signal: &[u8],
    before: bool,
    level: bool,
) -> Result<(), Memory>
    ensures { OnOk result (text.new.items
        ≡ text.old.items
        ++ change_row names.now.timing names.now.script t terminal signal.now before level) }
{
    if before == level {
        return Ok(());
    }
    push_row(text, names, t, terminal, signal, level)
}

// Whether a signal is on at a tick.
fn on_at(track: &Track<Level>, t: u32) -> bool
    requires { t < length track.now.keys }
    ensures { result ≡ is_on track.now t }
{
    track.at(t).must(0)
}

// From when to when a signal that changes at a tick, or may, stands as it does there.
fn stands_from(track: &Track<Level>, t: u32) -> Standing
    requires { t < length track.now.keys }
    ensures { Stands (is_on track.now) (t + 1) result }
{
    Standing {
        level: on_at(track, t),
        until: track.stays_until(t),
    }
}

/// Appends the row of a signal at a tick, if it changes there. One comparison tells a signal that
/// still stands.
pub fn push_signal(
    text: &mut Vec<u8>,
    names: &RowNames,
    track: &Track<Level>,
    t: u32,
    terminal: Name,
    signal: &[u8],
    standing: &mut Standing,
) -> Result<(), Memory>
    requires tick { t < length track.now.keys }
    requires stands { Stands (is_on track.now) t standing.old }
    ensures row { OnOk result (text.new.items
        ≡ text.old.items
        ++ signal_row names.now.timing names.now.script t terminal signal.now
        (is_on track.now)) }
    ensures stands { Stands (is_on track.now) (t + 1) standing.new }
{
    if t < standing.until {
        return Ok(());
    }
    let before = standing.level;
    *standing = stands_from(track, t);
    push_change(text, names, t, terminal, signal, before, standing.level)
}
