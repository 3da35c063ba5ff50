//! The data of a play as a record.

ghost use Rattle.std.specs.Prelude.{◌≡◌, ◌<◌, ◌++◌, IfOk, OnOk, length};
ghost use Rattle.model_history.specs.Each.{each_below};
ghost use Rattle.model_line.specs.Parameters.{terminal_count};
ghost use Rattle.model_logic.specs.Histories.{History, IsLineHistory};
ghost use Rattle.model_timing.specs.{Choice.timing_choice, Inside.IsTimingInside};
ghost use Rattle.run_step.specs.Ticks.{AreSent};
ghost use Rattle.run_changes.specs.changes.PlayedTracks.{is_on, played};
ghost use Rattle.file_records.specs.recorded.Data.{all_seen, data_text as text_of_data, level_field};
ghost use Rattle.file_records.specs.recorded.Data.{loss_field, sample_head, sample_text, seen_field, terminal_fields};

use base_text::pieces::push_pieces;
use itoa::Buffer;
use model_line::{Element, Line, Memory, Place, Script, loss, seen};
use model_timing::NamedTiming;
use net_gates::Compiled;
use run_changes::changes::{Tracks, run_tracks};
use run_changes::rows::level_word;
use run_signal::{Level, Signal, Track};
use run_step::laws::a_timing_is_one_choice;
use std::alloc::Global;

/// The data of the play of a timing under a script: a sample for each tick, with its stamp in
/// microseconds and the channels of the configuration.
pub fn data_text(
    alloc: Global,
    compiled: &Compiled<'_>,
    script: &Script,
    timing: &NamedTiming,
) -> Result<Vec<u8>, Memory>
    requires inside { IsTimingInside compiled.now.line.now timing.now.timing }
    ensures { IfOk result (λ v. (h : History) →
        IsLineHistory compiled.now.line.now script.now
        (timing_choice compiled.now.line.now timing.now.timing) h →
        v.items ≡ text_of_data compiled.now.line.now script.now h) }
{
    a_timing_is_one_choice();
    let values = timing.timing.values();
    let steps = timing.timing.steps();
    let tracks = run_tracks::<Level>(alloc, compiled, script, values, steps)?;
    let mut text = Vec::new(alloc);
    put_samples(&mut text, compiled.line, script, &tracks)?;
    Ok(text)
}

fn put_samples(
    text: &mut Vec<u8>,
    line: &Line,
    script: &Script,
    tracks: &Tracks<Level>,
) -> Result<(), Memory>
    requires keys { AreSent (terminal_count line.now) line.now.horizon line.now.horizon
        tracks.now.keys.items }
    requires trips { AreSent (terminal_count line.now) line.now.horizon line.now.horizon
        tracks.now.trips.items }
    ensures { OnOk result (text.new.items ≡ text.old.items ++ text_of_data line.now script.now
        (played tracks.now.keys.items tracks.now.trips.items)) }
{
    for t in 0..line.horizon {
        put_sample(text, line, script, tracks, t)?;
    }
    Ok(())
}

fn put_sample(
    text: &mut Vec<u8>,
    line: &Line,
    script: &Script,
    tracks: &Tracks<Level>,
    t: u32,
) -> Result<(), Memory>
    requires tick { t < line.now.horizon }
    requires keys { AreSent (terminal_count line.now) line.now.horizon line.now.horizon
        tracks.now.keys.items }
    requires trips { AreSent (terminal_count line.now) line.now.horizon line.now.horizon
        tracks.now.trips.items }
    ensures { OnOk result (text.new.items ≡ text.old.items ++ sample_text line.now script.now
        (played tracks.now.keys.items tracks.now.trips.items) t) }
{
    put_sample_head(text, line, t)?;
    put_terminals(text, line, script, tracks, t)?;
    put_losses(text, line, script, t)?;
    push_pieces(text, &[b"\r\n"])
}

// The number and the stamp of a sample.
fn put_sample_head(text: &mut Vec<u8>, line: &Line, t: u32) -> Result<(), Memory>
    requires { t < line.now.horizon }
    ensures { OnOk result (text.new.items ≡ text.old.items ++ sample_head line.now t) }
{
    let mut digits = Buffer::new();
    let n = digits.format(t + 1).as_bytes();
    let mut more = Buffer::new();
    let micros = u64::from(t) * u64::from(line.tick_us);
    let stamp = more.format(micros).as_bytes();
    push_pieces(text, &[n, b",", stamp])
}

fn put_terminals(
    text: &mut Vec<u8>,
    line: &Line,
    script: &Script,
    tracks: &Tracks<Level>,
    t: u32,
) -> Result<(), Memory>
    requires tick { t < line.now.horizon }
    requires keys { AreSent (terminal_count line.now) line.now.horizon line.now.horizon
        tracks.now.keys.items }
    requires trips { AreSent (terminal_count line.now) line.now.horizon line.now.horizon
        tracks.now.trips.items }
    ensures { OnOk result (text.new.items ≡ text.old.items ++ each_below (terminal_count line.now)
        (terminal_fields script.now (played tracks.now.keys.items tracks.now.trips.items) t)) }
{
    for k in 0..line.terminals.len() {
        put_terminal(text, script, &tracks.keys[k], &tracks.trips[k], t, k as u32)?;
    }
    Ok(())
}

// What a terminal sees, keys and trips.
fn put_terminal(
    text: &mut Vec<u8>,
    script: &Script,
    key: &Track<Level>,
    trip: &Track<Level>,
    t: u32,
    k: u32,
) -> Result<(), Memory>
    requires key { t < length key.now.keys }
    requires trip { t < length trip.now.keys }
    ensures { OnOk result (text.new.items ≡ text.old.items ++ (all_seen script.now t k
        ++ level_field (is_on key.now t) ++ level_field (is_on trip.now t))) }
{
    put_seen(text, script, k, t)?;
    put_track(text, key, t)?;
    put_track(text, trip, t)
}

// What a terminal sees.
fn put_seen(text: &mut Vec<u8>, script: &Script, k: u32, t: u32) -> Result<(), Memory>
    ensures { OnOk result (text.new.items ≡ text.old.items ++ all_seen script.now t k) }
{
    put_element(text, script, Element::Z1, k, t)?;
    put_element(text, script, Element::Z2, k, t)?;
    put_element(text, script, Element::Rv, k, t)?;
    put_element(text, script, Element::Uv, k, t)?;
    put_element(text, script, Element::Cur, k, t)
}

fn put_element(
    text: &mut Vec<u8>,
    script: &Script,
    element: Element,
    terminal: u32,
    t: u32,
) -> Result<(), Memory>
    ensures { OnOk result (text.new.items
        ≡ text.old.items ++ seen_field script.now t terminal element) }
{
    put_level(text, seen(script, Place { element, terminal }, t))
}

// A key or a trip.
fn put_track(text: &mut Vec<u8>, track: &Track<Level>, t: u32) -> Result<(), Memory>
    requires { t < length track.now.keys }
    ensures { OnOk result (text.new.items ≡ text.old.items ++ level_field (is_on track.now t)) }
{
    put_level(text, track.at(t).must(0))
}

fn put_losses(text: &mut Vec<u8>, line: &Line, script: &Script, t: u32) -> Result<(), Memory>
    ensures { OnOk result (text.new.items ≡ text.old.items
        ++ each_below (length line.now.channels.items) (loss_field script.now t)) }
{
    for c in 0..line.channels.len() {
        put_level(text, loss(script, c as u32, t))?;
    }
    Ok(())
}

fn put_level(text: &mut Vec<u8>, level: bool) -> Result<(), Memory>
    ensures { OnOk result (text.new.items ≡ text.old.items ++ level_field level) }
{
    push_pieces(text, &[b",", level_word(level)])
}
