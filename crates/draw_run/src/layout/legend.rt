//! Which ticks are shown, and what the bars and marks are that the rows have.

ghost use Rattle.std.specs.Prelude.{◌≡◌, ◌-◌, ◌++◌, IfOk, OnOk};
ghost use Rattle.std.specs.List.{flat_map, list_any};
ghost use Rattle.draw_run.specs.layout.Legend.{all_said, entry, entry_if_any, has_bar, has_mark};
ghost use Rattle.draw_run.specs.layout.Legend.{legend, legend_said, looks_so, mark_entry};
ghost use Rattle.draw_run.specs.layout.Legend.{mark_entry_if_any, row_has_bar, row_has_mark};
ghost use Rattle.draw_run.specs.layout.Legend.{shown_said, shows_all, some_said};
ghost use Rattle.draw_run.specs.layout.Words.{said};
ghost use Rattle.draw_shapes.specs.Seen.{figures_seen};

use crate::diagram::{Diagram, Row, Stretch, Trace, Window, has_marks, is_off};
use crate::layout::bar::{BARS, Bar, bar_of};
use crate::layout::words::Words;
use draw_shapes::{Class, Figure, put_rectangle, put_text, put_words};
use model_line::{Line, Memory};
use std::alloc::Global;

/// How much lies below the axis for the legend.
pub const LEGEND_HEIGHT: u32 = 720;

/// Appends the legend from `top` on: the ticks that are shown, and below that an entry for each look
/// that some bar has, and one for marks where there are any.
pub fn put_legend(
    alloc: Global,
    figures: &mut Vec<Figure>,
    of: &Line,
    diagram: &Diagram,
    top: u32,
) -> Result<(), Memory>
    ensures { OnOk result (figures_seen figures.new.items
        ≡ figures_seen figures.old.items ++ legend of.now diagram.now top) }
{
    let said = legend_words(alloc, of, diagram.window)?;
    put_text(
        figures,
        Class::Quiet,
        (140, top.saturating_add(180)),
        said.bytes,
    )?;
    let rows = diagram.rows.as_slice();
    put_entries(alloc, figures, rows, top, &BARS)?;
    put_mark_entry_if_any(alloc, figures, rows, top)
}

// Appends an entry for each of these looks that some bar has.
fn put_entries(
    alloc: Global,
    figures: &mut Vec<Figure>,
    rows: &[Row],
    top: u32,
    bars: &[Bar],
) -> Result<(), Memory>
    ensures { OnOk result (figures_seen figures.new.items
        ≡ figures_seen figures.old.items ++ flat_map (entry_if_any rows.now top) bars.now) }
{
    for bar in bars {
        put_entry_if_any(alloc, figures, rows, top, *bar)?;
    }
    Ok(())
}

fn put_entry_if_any(
    alloc: Global,
    figures: &mut Vec<Figure>,
    rows: &[Row],
    top: u32,
    bar: Bar,
) -> Result<(), Memory>
    ensures { OnOk result (figures_seen figures.new.items
        ≡ figures_seen figures.old.items ++ entry_if_any rows.now top bar) }
{
    if !has_bar(rows, bar) {
        return Ok(());
    }
    let y = top.saturating_add(bar.below());
    put_entry(alloc, figures, bar.left(), y, bar.class(), bar.said())
}

// Whether some bar of the rows that are drawn looks so.
fn has_bar(rows: &[Row], bar: Bar) -> bool
    ensures { result ≡ has_bar bar rows.now }
{
    rows.iter().any(|row| row_has_bar(row, bar))
}

fn row_has_bar(row: &Row, bar: Bar) -> bool
    ensures { result ≡ row_has_bar bar row.now }
{
    row.is_drawn && some_looks_so(row.stretches.as_slice(), row.trace, bar)
}

fn some_looks_so(stretches: &[Stretch], trace: Trace, bar: Bar) -> bool
    ensures { result ≡ list_any (looks_so bar trace) stretches.now }
{
    stretches.iter().any(|s| looks_so(s, trace, bar))
}

fn looks_so(stretch: &Stretch, trace: Trace, bar: Bar) -> bool
    ensures { result ≡ looks_so bar trace stretch.now }
{
    !is_off(stretch.value) && bar_of(trace, stretch.value) == bar
}

// Whether some row that is drawn has a mark.
fn has_mark(rows: &[Row]) -> bool
    ensures { result ≡ has_mark rows.now }
{
    rows.iter().any(|row| row_has_mark(row))
}

fn row_has_mark(row: &Row) -> bool
    ensures { result ≡ row_has_mark row.now }
{
    row.is_drawn && has_marks(row.marks.as_slice())
}

fn put_mark_entry_if_any(
    alloc: Global,
    figures: &mut Vec<Figure>,
    rows: &[Row],
    top: u32,
) -> Result<(), Memory>
    ensures { OnOk result (figures_seen figures.new.items
        ≡ figures_seen figures.old.items ++ mark_entry_if_any rows.now top) }
{
    if !has_mark(rows) {
        return Ok(());
    }
    let y = top.saturating_add(580);
    put_mark_entry(alloc, figures, y, b"change of channel delay")
}

// A mark and what it is.
#[tactic(auto, unfolding(crate::specs::layout::Legend::mark_entry))]
fn put_mark_entry(
    alloc: Global,
    figures: &mut Vec<Figure>,
    y: u32,
    what: &[u8],
) -> Result<(), Memory>
    ensures { OnOk result (figures_seen figures.new.items
        ≡ figures_seen figures.old.items ++ mark_entry y what.now) }
{
    let corner = (250, y.saturating_sub(130));
    put_rectangle(figures, Class::Step, corner, (20, 150))?;
    Ok(put_words(alloc, figures, Class::Quiet, (450, y), what)?)
}

// A bar and what it is.
#[tactic(auto, unfolding(crate::specs::layout::Legend::entry))]
fn put_entry(
    alloc: Global,
    figures: &mut Vec<Figure>,
    x: u32,
    y: u32,
    class: Class,
    what: &[u8],
) -> Result<(), Memory>
    ensures { OnOk result (figures_seen figures.new.items
        ≡ figures_seen figures.old.items ++ entry x y class what.now) }
{
    put_rectangle(figures, class, (x, y.saturating_sub(110)), (240, 120))?;
    let at = (x.saturating_add(310), y);
    Ok(put_words(alloc, figures, Class::Quiet, at, what)?)
}

// How long a tick is, and which ticks are shown.
#[tactic(auto, unfolding(crate::specs::layout::Legend::legend_said))]
fn legend_words(alloc: Global, of: &Line, window: Window) -> Result<Words, Memory>
    ensures { IfOk result (λ words. said words ≡ legend_said of.now window) }
{
    let words = Words::new(alloc)
        .word(b"Ticks of ")?
        .milliseconds(of.tick_us as u64)?
        .word(b" ms. ")?;
    shown_words(words, of.horizon - 1, window)
}

fn shown_words(words: Words, last: u32, window: Window) -> Result<Words, Memory>
    ensures { IfOk result (λ all. said all ≡ said words ++ shown_said last window) }
{
    if shows_all(last, window) {
        all_words(words, last)
    } else {
        some_words(words, last, window)
    }
}

fn shows_all(last: u32, window: Window) -> bool
    ensures { result ≡ shows_all last window }
{
    window.first == 0 && last <= window.last
}

#[tactic(auto, unfolding(crate::specs::layout::Legend::all_said))]
fn all_words(words: Words, last: u32) -> Result<Words, Memory>
    ensures { IfOk result (λ all. said all ≡ said words ++ all_said last) }
{
    words
        .word(b"All ticks are shown, 0 to ")?
        .number(last as u64)?
        .word(b".")
}

#[tactic(auto, unfolding(crate::specs::layout::Legend::some_said))]
fn some_words(words: Words, last: u32, window: Window) -> Result<Words, Memory>
    ensures { IfOk result (λ all. said all ≡ said words ++ some_said last window) }
{
    words
        .word(b"Ticks ")?
        .number(window.first as u64)?
        .word(b" to ")?
        .number(window.last as u64)?
        .word(b" of 0 to ")?
        .number(last as u64)?
        .word(b" are shown; nothing changes at the others.")
}
