//! The spans of the ticks at which signals are on.

ghost use Rattle.std.specs.Prelude.{◌≡◌, ◌≤◌, ◌<◌, ◌-◌, ◌++◌, IfOk, OnOk, map, length};
ghost use Rattle.model_history.specs.Each.{each_below};
ghost use Rattle.run_changes.specs.rows.PlayRows.{value_before};
ghost use Rattle.model_line.specs.Parameters.{terminal_count};
ghost use Rattle.model_line.specs.declared.script.What.TheVariants as what;
ghost use Rattle.file_records.specs.declared.map.source.Signal.TheVariants.{Shown};
ghost use Rattle.file_records.specs.{tracks.Levels.is_on as is_signal_on, tracks.Tracks.track_values};
ghost use Rattle.file_records.specs.recorded.Spans.{begins_at, first_off as off_tick, span_from, spans_of};
ghost use Rattle.file_records.specs.recorded.Spans.{spans_told as all_spans, terminal_spans};

use crate::map::Signal;
use crate::tracks::{Track, is_on};
use model_line::{Element, Line, Memory, Place, SeenSpan, What};
use std::alloc::Global;

/// Whether a signal was on at the tick before; off before tick 0.
pub fn was_on(tracks: &[Track], signal: Signal, t: u32) -> bool
    ensures { result ≡ value_before (is_signal_on (map track_values tracks.now) signal) t }
{
    if t == 0 {
        false
    } else {
        is_on(tracks, signal, t - 1)
    }
}

// Whether a signal that was off before is on from a tick on.
fn begins(tracks: &[Track], signal: Signal, t: u32) -> bool
    ensures { result ≡ begins_at (is_signal_on (map track_values tracks.now) signal) t }
{
    is_on(tracks, signal, t) && !was_on(tracks, signal, t)
}

#[tactic(auto, using(crate::proofs::recorded_lemmas::Items::off_here, crate::proofs::recorded_lemmas::Items::off_later, crate::proofs::recorded_lemmas::Items::off_end))]
// The first tick from t on at which a signal is off, or the horizon.
fn first_off(tracks: &[Track], signal: Signal, t: u32, horizon: u32) -> u32
    requires { t ≤ horizon }
    ensures { result ≡ off_tick (is_signal_on (map track_values tracks.now) signal) t
        (horizon - t) }
{
    for u in t..horizon {
        if !is_on(tracks, signal, u) {
            return u;
        }
    }
    horizon
}

// Adds the span that begins at a tick, if one does.
fn push_span(
    tracks: &[Track],
    horizon: u32,
    what: What,
    t: u32,
    spans: &mut Vec<SeenSpan>,
) -> Result<(), Memory>
    requires { t < horizon }
    ensures { OnOk result (spans.new.items ≡ spans.old.items ++ span_from what
        (is_signal_on (map track_values tracks.now) (Shown what)) horizon t) }
{
    let signal = Signal::Shown(what);
    if begins(tracks, signal, t) {
        spans.push(SeenSpan {
            what,
            from: t,
            to: first_off(tracks, signal, t, horizon),
        })?;
    }
    Ok(())
}

// Adds the spans of what is shown.
fn push_spans(
    tracks: &[Track],
    horizon: u32,
    what: What,
    spans: &mut Vec<SeenSpan>,
) -> Result<(), Memory>
    ensures { OnOk result (spans.new.items ≡ spans.old.items
        ++ spans_of (map track_values tracks.now) horizon what) }
{
    for t in 0..horizon {
        push_span(tracks, horizon, what, t, spans)?;
    }
    Ok(())
}

fn element(element: Element, terminal: u32) -> What
    ensures { result ≡ what.Element (record { element = element; terminal = terminal }) }
{
    What::Element(Place { element, terminal })
}

// Adds the spans of what a terminal sees.
fn push_terminal(
    tracks: &[Track],
    horizon: u32,
    k: u32,
    spans: &mut Vec<SeenSpan>,
) -> Result<(), Memory>
    ensures { OnOk result (spans.new.items ≡ spans.old.items
        ++ terminal_spans (map track_values tracks.now) horizon k) }
{
    push_spans(tracks, horizon, element(Element::Z1, k), spans)?;
    push_spans(tracks, horizon, element(Element::Z2, k), spans)?;
    push_spans(tracks, horizon, element(Element::Rv, k), spans)?;
    push_spans(tracks, horizon, element(Element::Uv, k), spans)?;
    push_spans(tracks, horizon, element(Element::Cur, k), spans)
}

fn push_terminals(line: &Line, tracks: &[Track], spans: &mut Vec<SeenSpan>) -> Result<(), Memory>
    ensures { OnOk result (spans.new.items ≡ spans.old.items ++ each_below (terminal_count line.now)
        (terminal_spans (map track_values tracks.now) line.now.horizon)) }
{
    for k in 0..line.terminals.len() {
        push_terminal(tracks, line.horizon, k as u32, spans)?;
    }
    Ok(())
}

fn push_losses(line: &Line, tracks: &[Track], spans: &mut Vec<SeenSpan>) -> Result<(), Memory>
    ensures { OnOk result (spans.new.items ≡ spans.old.items
        ++ each_below (length line.now.channels.items)
        (λ c. spans_of (map track_values tracks.now) line.now.horizon (what.Loss c))) }
{
    for c in 0..line.channels.len() {
        push_spans(tracks, line.horizon, What::Loss(c as u32), spans)?;
    }
    Ok(())
}

/// The spans of all that the tracks show: terminals in line order, each with its elements, and then
/// the channels that are lost.
pub fn spans_told(alloc: Global, line: &Line, tracks: &[Track]) -> Result<Vec<SeenSpan>, Memory>
    ensures { IfOk result (λ v. v.items ≡ all_spans line.now (map track_values tracks.now)) }
{
    let mut spans = Vec::new(alloc);
    push_terminals(line, tracks, &mut spans)?;
    push_losses(line, tracks, &mut spans)?;
    Ok(spans)
}
