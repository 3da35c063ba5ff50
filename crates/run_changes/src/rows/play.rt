//! The rows of a played timing.

ghost use Rattle.std.specs.Prelude.{◌≡◌, ◌<◌, ◌+◌, ◌++◌, OnOk, IfOk};
ghost use Rattle.model_logic.specs.Histories.{History, IsLineHistory};
ghost use Rattle.model_line.specs.Parameters.{terminal_count};
ghost use Rattle.model_timing.specs.{Inside.IsTimingInside, Choice.timing_choice};
ghost use Rattle.run_changes.specs.rows.PlayRows.{terminal_rows, tick_rows, run_rows};
ghost use Rattle.run_changes.specs.rows.StandingLaws.{AllStand, PairStands};
ghost use Rattle.run_step.specs.Ticks.{AreSent};
ghost use Rattle.run_changes.specs.changes.PlayedTracks.{played};

use crate::changes::{Tracks, run_tracks};
use crate::rows::rows::{RowNames, push_signal};
use crate::rows::standing::{Pair, fresh_pairs, next_change};
use model_line::{Line, Memory, Script};
use model_timing::NamedTiming;
use net_gates::Compiled;
use run_signal::Level;
use run_step::laws::a_timing_is_one_choice;
use std::alloc::Global;

// The rows of most runs fit into so many bytes.
const ROOM: usize = 1024;

/// The rows of one timing and script: one for each change of a terminal's key or trip, by tick,
/// then terminal in line order, then `key` before `trip`. A row is
/// `timing,script,tick,terminal,signal,level` and a line feed. That the timing has a history under
/// the script, and one alone, is the law `a_timing_is_one_choice`.
pub fn play_rows(
    alloc: Global,
    compiled: &Compiled<'_>,
    script: &Script,
    timing: &NamedTiming,
) -> Result<Vec<u8>, Memory>
    requires inside { IsTimingInside compiled.now.line.now timing.now.timing }
    ensures { IfOk result (λ text. (h : History) →
        IsLineHistory compiled.now.line.now script.now (timing_choice compiled.now.line.now
        timing.now.timing) h →
        text.items ≡ run_rows timing.now.name script.now.name compiled.now.line.now h) }
{
    a_timing_is_one_choice();
    let values = timing.timing.values();
    let steps = timing.timing.steps();
    let tracks = run_tracks::<Level>(alloc, compiled, script, values, steps)?;
    let names = RowNames {
        timing: timing.name,
        script: script.name,
    };
    let mut text = Vec::with_capacity(alloc, ROOM)?;
    push_run(alloc, &mut text, &names, compiled.line, &tracks)?;
    Ok(text)
}

// Appends the rows of all ticks, which are those of the ticks at which some key or trip changes.
fn push_run(
    alloc: Global,
    text: &mut Vec<u8>,
    names: &RowNames,
    line: &Line,
    tracks: &Tracks<Level>,
) -> Result<(), Memory>
    requires keys { AreSent (terminal_count line.now) line.now.horizon line.now.horizon
        tracks.now.keys.items }
    requires trips { AreSent (terminal_count line.now) line.now.horizon line.now.horizon
        tracks.now.trips.items }
    ensures { OnOk result (text.new.items
        ≡ text.old.items
        ++ run_rows names.now.timing names.now.script line.now
        (played tracks.now.keys.items tracks.now.trips.items)) }
{
    let mut pairs = fresh_pairs(alloc, line.terminals.len())?;
    let mut t = 0;
    'changes: while t < line.horizon {
        push_tick(text, names, line, tracks, t, &mut pairs)?;
        t = next_change(&pairs, line.horizon);
    }
    Ok(())
}

// Appends the rows of one tick, terminals in line order.
fn push_tick(
    text: &mut Vec<u8>,
    names: &RowNames,
    line: &Line,
    tracks: &Tracks<Level>,
    t: u32,
    pairs: &mut Vec<Pair>,
) -> Result<(), Memory>
    requires tick { t < line.now.horizon }
    requires keys { AreSent (terminal_count line.now) line.now.horizon line.now.horizon
        tracks.now.keys.items }
    requires trips { AreSent (terminal_count line.now) line.now.horizon line.now.horizon
        tracks.now.trips.items }
    requires stand { AllStand (terminal_count line.now) t tracks.now.keys.items
        tracks.now.trips.items pairs.old.items }
    ensures rows { OnOk result (text.new.items
        ≡ text.old.items
        ++ tick_rows names.now.timing names.now.script line.now
        (played tracks.now.keys.items tracks.now.trips.items) t) }
    ensures stand { OnOk result (AllStand (terminal_count line.now) (t + 1) tracks.now.keys.items
        tracks.now.trips.items pairs.new.items) }
{
    for k in 0..line.terminals.len() {
        push_terminal(text, names, line, tracks, t, k, &mut pairs[k])?;
    }
    Ok(())
}

// Appends the rows of one terminal at one tick, the key's before the trip's.
fn push_terminal(
    text: &mut Vec<u8>,
    names: &RowNames,
    line: &Line,
    tracks: &Tracks<Level>,
    t: u32,
    k: usize,
    pair: &mut Pair,
) -> Result<(), Memory>
    requires terminal { k < terminal_count line.now }
    requires tick { t < line.now.horizon }
    requires keys { AreSent (terminal_count line.now) line.now.horizon line.now.horizon
        tracks.now.keys.items }
    requires trips { AreSent (terminal_count line.now) line.now.horizon line.now.horizon
        tracks.now.trips.items }
    requires stands { PairStands t tracks.now.keys.items tracks.now.trips.items k pair.old }
    ensures rows { OnOk result (text.new.items
        ≡ text.old.items
        ++ terminal_rows names.now.timing names.now.script line.now
        (played tracks.now.keys.items tracks.now.trips.items) t k) }
    ensures stands { OnOk result (PairStands (t + 1) tracks.now.keys.items tracks.now.trips.items
        k pair.new) }
{
    let name = line.terminals[k].name;
    push_signal(text, names, &tracks.keys[k], t, name, b"key", &mut pair.key)?;
    push_signal(
        text,
        names,
        &tracks.trips[k],
        t,
        name,
        b"trip",
        &mut pair.trip,
    )?;
    Ok(())
}
