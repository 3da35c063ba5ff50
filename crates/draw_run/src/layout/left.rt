//! How much room the names take at the left of the axis. Lengths are tenths of a pixel.

ghost use Rattle.std.specs.Prelude.{◌≡◌, ◌≤◌, IfOk};
ghost use Rattle.draw_run.specs.layout.Left.{bold_width_of, is_capital, is_wide, left_of};
ghost use Rattle.draw_run.specs.layout.Left.{letter_width, row_width, scale_of, widest, width_of};

use crate::diagram::{Diagram, Row};
use crate::layout::row::{row_name, terminal_of};
use crate::layout::scale::Scale;
use model_line::{Line, Memory, name_of_terminal};
use std::alloc::Global;

/// The scale of a diagram: the axis begins behind the longest name, and shows the diagram's ticks.
pub fn scale_of(alloc: Global, of: &Line, diagram: &Diagram) -> Result<Scale, Memory>
    ensures { IfOk result (λ scale. scale ≡ scale_of of.now diagram.now) }
{
    let left = left_of(alloc, of, diagram.rows.as_slice())?;
    Ok(Scale {
        left,
        window: diagram.window,
    })
}

// Where the axis begins.
fn left_of(alloc: Global, of: &Line, rows: &[Row]) -> Result<u32, Memory>
    ensures { IfOk result (λ left. left ≡ left_of of.now rows.now) }
{
    let names = widest(alloc, of, rows)?;
    Ok(names.saturating_add(240).max(2000).min(3500))
}

fn widest(alloc: Global, of: &Line, rows: &[Row]) -> Result<u32, Memory>
    ensures { IfOk result (λ width. width ≡ widest of.now rows.now) }
{
    match rows {
        [] => Ok(0),
        [shown, rest @ ..] => {
            let width = row_width(alloc, of, shown)?;
            Ok(width.max(widest(alloc, of, rest)?))
        }
    }
}

// How wide the name of a row is, if it is drawn, and that of its terminal.
fn row_width(alloc: Global, of: &Line, shown: &Row) -> Result<u32, Memory>
    ensures { IfOk result (λ width. width ≡ row_width of.now shown.now) }
{
    if !shown.is_drawn {
        return Ok(0);
    }
    let name = row_name(alloc, of, shown.trace)?;
    let terminal = name_of_terminal(of, terminal_of(of, shown.trace));
    Ok(width_of(name.bytes.as_slice()).max(bold_width_of(terminal)))
}

fn bold_width_of(words: &[u8]) -> u32
    ensures { result ≡ bold_width_of words.now }
{
    let width = width_of(words);
    width.saturating_add(width / 8)
}

// How wide words are at most.
fn width_of(words: &[u8]) -> u32
    ensures { result ≡ width_of words.now }
{
    match words {
        [] => 0,
        [b, rest @ ..] => width_of(rest).saturating_add(letter_width(*b)),
    }
}

fn letter_width(b: u8) -> u32
    ensures { result ≡ letter_width b }
{
    if is_wide(b) {
        120
    } else if is_capital(b) {
        95
    } else {
        77
    }
}

fn is_wide(b: u8) -> bool
    ensures { result ≡ is_wide b }
{
    b == b'M' || b == b'W' || b == b'm' || b == b'w'
}

fn is_capital(b: u8) -> bool
    ensures { result ≡ is_capital b }
{
    b'A' <= b && b <= b'Z'
}
