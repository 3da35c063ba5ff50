//! The legend, and what is lost beyond.

ghost use Rattle.std.specs.Prelude.{◌≡◌, ◌≤◌, ◌+◌, ◌*◌, ◌++◌, ◌∷◌, [], OnOk, map, length};
ghost use Rattle.std.specs.List.{list_all, list_any};
ghost use Rattle.draw_shapes.specs.Seen.{figures_seen};
ghost use Rattle.draw_shapes.specs.Scale.{IsGrid, IsScale};
ghost use Rattle.draw_shapes.specs.Cells.{is_held as look_is_held};
ghost use Rattle.draw_shapes.specs.Drawings.{legend_drawn};
ghost use Rattle.draw_shapes.specs.Legend.{beyond_heading, beyond_said, both_are, entries_from, entry_drawn};
ghost use Rattle.draw_shapes.specs.Legend.{is_failing as look_is_failing, is_open as look_is_open};
ghost use Rattle.draw_shapes.specs.Legend.{is_there as entry_is_there, lines_from, sign_of};
ghost use Rattle.draw_shapes.specs.Legend.{some_held as some_are_held, words_of as words_for};

use crate::border::is_held;
use crate::class::Class;
use crate::figure::Figure;
use crate::grid::{Grid, GridCell, Look};
use crate::mark::{across, put_target, up_by};
use crate::pen::{put_rectangle, put_words};
use crate::scale::Scale;
use crate::spots::put_cell;
use std::alloc::{AllocError, Global};

/// What the legend may explain.
#[derive(Clone, Copy)]
pub enum Entry {
    Held,
    Open,
    Fails,
    Border,
    Declared,
}

/// In the order of the legend.
pub const ENTRIES: [Entry; 5] = [
    Entry::Held,
    Entry::Open,
    Entry::Fails,
    Entry::Border,
    Entry::Declared,
];

/// Appends the legend of what is there, and below it what is lost beyond.
pub fn put_legend(
    alloc: Global,
    figures: &mut Vec<Figure>,
    scale: Scale,
    grid: &Grid,
) -> Result<(), AllocError>
    requires fits { IsScale scale }
    requires grid { IsGrid grid.now }
    ensures { OnOk result (figures_seen figures.new.items
        ≡ figures_seen figures.old.items ++ legend_drawn scale grid.now) }
{
    put_entries(alloc, figures, scale, grid, 1100, &ENTRIES)?;
    put_beyond(alloc, figures, grid.beyond.as_slice())
}

// Appends the entries of what is there, one below the other.
fn put_entries(
    alloc: Global,
    figures: &mut Vec<Figure>,
    scale: Scale,
    grid: &Grid,
    y: u32,
    entries: &[Entry],
) -> Result<(), AllocError>
    requires fits { IsScale scale }
    requires grid { IsGrid grid.now }
    requires room { y + 260 * length entries.now ≤ 10000 }
    ensures { OnOk result (figures_seen figures.new.items
        ≡ figures_seen figures.old.items ++ entries_from scale grid.now y entries.now) }
{
    match entries {
        [] => Ok(()),
        [one, rest @ ..] => {
            if is_there(scale, grid, *one) {
                put_entry(alloc, figures, grid, *one, y)?;
                put_entries(alloc, figures, scale, grid, y + 260, rest)
            } else {
                put_entries(alloc, figures, scale, grid, y, rest)
            }
        }
    }
}

fn put_entry(
    alloc: Global,
    figures: &mut Vec<Figure>,
    grid: &Grid,
    one: Entry,
    y: u32,
) -> Result<(), AllocError>
    requires { y ≤ 10000 }
    ensures { OnOk result (figures_seen figures.new.items
        ≡ figures_seen figures.old.items ++ entry_drawn grid.now one y) }
{
    put_sign(figures, one, y)?;
    let at = (7620, y + 120);
    put_words(alloc, figures, Class::Begin, at, words_of(grid, one))
}

fn put_sign(figures: &mut Vec<Figure>, one: Entry, y: u32) -> Result<(), AllocError>
    requires { y ≤ 10000 }
    ensures { OnOk result (figures_seen figures.new.items
        ≡ figures_seen figures.old.items ++ sign_of one y) }
{
    let sample = Scale {
        columns: 1,
        rows: 1,
        width: 220,
        height: 160,
    };
    match one {
        Entry::Held => put_cell(figures, sample, (7300, y), Look::Held),
        Entry::Open => put_cell(figures, sample, (7300, y), Look::Open),
        Entry::Fails => put_cell(figures, sample, (7300, y), Look::Fails),
        Entry::Border => put_rectangle(figures, Class::Margin, (7300, y + 70), (220, 20)),
        Entry::Declared => put_target(figures, 7410, y + 80),
    }
}

fn words_of<'a>(grid: &'a Grid, one: Entry) -> &'a [u8]
    ensures { result.now ≡ words_for grid.now one }
{
    match one {
        Entry::Held => b"held: each obligation is always met",
        Entry::Open => b"open: neither is known",
        Entry::Fails => b"fails: some obligation can fail",
        Entry::Border => b"border of what is held",
        Entry::Declared => grid.declared.as_slice(),
    }
}

// Whether there is something to explain.
fn is_there(scale: Scale, grid: &Grid, one: Entry) -> bool
    requires fits { IsScale scale }
    requires grid { IsGrid grid.now }
    ensures { result ≡ entry_is_there scale grid.now one }
{
    let cells = grid.cells.as_slice();
    match one {
        Entry::Held => some_held(cells),
        Entry::Open => some_open(cells),
        Entry::Fails => some_failing(cells),
        Entry::Border => some_held(cells) && !all_held(cells),
        Entry::Declared => are_both(across(scale, grid), up_by(scale, &grid.y)),
    }
}

fn are_both(a: Option<u32>, b: Option<u32>) -> bool
    ensures { result ≡ both_are a b }
{
    match (a, b) {
        (Some(_), Some(_)) => true,
        (None, _) | (Some(_), None) => false,
    }
}

fn some_held(cells: &[GridCell]) -> bool
    ensures { result ≡ some_are_held cells.now }
{
    cells.iter().any(|cell| is_held(cell.look))
}

fn all_held(cells: &[GridCell]) -> bool
    ensures { result ≡ list_all (λ cell. look_is_held cell.look) cells.now }
{
    cells.iter().all(|cell| is_held(cell.look))
}

fn some_open(cells: &[GridCell]) -> bool
    ensures { result ≡ list_any (λ cell. look_is_open cell.look) cells.now }
{
    cells.iter().any(|cell| is_open(cell.look))
}

fn some_failing(cells: &[GridCell]) -> bool
    ensures { result ≡ list_any (λ cell. look_is_failing cell.look) cells.now }
{
    cells.iter().any(|cell| is_failing(cell.look))
}

fn is_open(look: Look) -> bool
    ensures { result ≡ look_is_open look }
{
    match look {
        Look::Open => true,
        Look::Held | Look::Fails => false,
    }
}

fn is_failing(look: Look) -> bool
    ensures { result ≡ look_is_failing look }
{
    match look {
        Look::Fails => true,
        Look::Held | Look::Open => false,
    }
}

// Appends what is lost beyond under a heading of its own, if anything is.
fn put_beyond(alloc: Global, figures: &mut Vec<Figure>, lines: &[Vec<u8>]) -> Result<(), AllocError>
    requires { length lines.now ≤ 4 }
    ensures { OnOk result (figures_seen figures.new.items
        ≡ figures_seen figures.old.items ++ beyond_said (map (λ words. words.items) lines.now)) }
{
    match lines {
        [] => Ok(()),
        [_, ..] => {
            put_heading(alloc, figures)?;
            put_lines(alloc, figures, 2920, lines)
        }
    }
}

fn put_heading(alloc: Global, figures: &mut Vec<Figure>) -> Result<(), AllocError>
    ensures { OnOk result (figures_seen figures.new.items
        ≡ figures_seen figures.old.items ++ beyond_heading ∷ []) }
{
    let heading = b"lost first beyond the border";
    put_words(alloc, figures, Class::Terminal, (7300, 2700), heading)
}

fn put_lines(
    alloc: Global,
    figures: &mut Vec<Figure>,
    y: u32,
    lines: &[Vec<u8>],
) -> Result<(), AllocError>
    requires { y + 200 * length lines.now ≤ 10000 }
    ensures { OnOk result (figures_seen figures.new.items
        ≡ figures_seen figures.old.items ++ lines_from y (map (λ words. words.items) lines.now)) }
{
    match lines {
        [] => Ok(()),
        [words, rest @ ..] => {
            let at = (7300, y);
            put_words(alloc, figures, Class::Begin, at, words.as_slice())?;
            put_lines(alloc, figures, y + 200, rest)
        }
    }
}
