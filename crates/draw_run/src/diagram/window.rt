//! The ticks that are worth looking at.

ghost use Rattle.std.specs.Prelude.{◌≡◌, ◌≤◌, ◌<◌, ℕ, IfSome};
ghost use Rattle.std.specs.List.{All};
ghost use Rattle.draw_run.specs.diagram.Windows.{IsInWindow, ShowsMore, IsChangeShown, IsShown};
ghost use Rattle.draw_run.specs.diagram.Windows.{BeginsBelow, ChangesBelow, IsTickBelow};

use crate::diagram::rows::Row;
use crate::diagram::stretch::Stretch;

/// The ticks t with `first <= t <= last`.
#[derive(Clone, Copy)]
pub struct Window {
    pub first: u32,
    pub last: u32,
}

/// The ticks at which something happens, and some before and behind: each change and each mark of a
/// row lies in them, the inception and the deadline.
pub fn shown_window(
    rows: &[Row],
    inception: Option<u32>,
    deadline: Option<u32>,
    horizon: u32,
) -> Window
    requires some { 1 ≤ horizon }
    requires changes { All (ChangesBelow horizon) rows.now }
    requires inception { IfSome inception (λ t. t < horizon) }
    requires deadline { IfSome deadline (λ t. t < horizon) }
    ensures some { result.first ≤ result.last }
    ensures within { result.last < horizon }
    ensures rows { All (IsShown result) rows.now }
    ensures inception { IfSome inception (IsInWindow result) }
    ensures deadline { IfSome deadline (IsInWindow result) }
{
    let none = Window {
        first: horizon - 1,
        last: 0,
    };
    let marked = with_mark(with_mark(none, inception), deadline);
    padded(with_rows(marked, rows), horizon)
}

fn with_mark(window: Window, mark: Option<u32>) -> Window
    ensures below { (h : ℕ) → window.last < h → IfSome mark (λ t. t < h) → result.last < h }
    ensures holds { IfSome mark (IsInWindow result) }
    ensures wider { ShowsMore window result }
{
    match mark {
        Some(t) => widened(window, t),
        None => window,
    }
}

fn widened(window: Window, t: u32) -> Window
    ensures below { (h : ℕ) → window.last < h → t < h → result.last < h }
    ensures holds { IsInWindow result t }
    ensures wider { ShowsMore window result }
{
    Window {
        first: window.first.min(t),
        last: window.last.max(t),
    }
}

fn with_rows(window: Window, rows: &[Row]) -> Window
    ensures below { (h : ℕ) → window.last < h → All (ChangesBelow h) rows.now → result.last < h }
    ensures shown { All (IsShown result) rows.now }
    ensures wider { ShowsMore window result }
{
    let mut wide = window;
    for row in rows {
        wide = with_row(wide, row);
    }
    wide
}

fn with_row(window: Window, row: &Row) -> Window
    ensures below { (h : ℕ) → window.last < h → ChangesBelow h row.now → result.last < h }
    ensures shown { IsShown result row.now }
    ensures wider { ShowsMore window result }
{
    with_marks(
        with_stretches(window, row.stretches.as_slice()),
        row.marks.as_slice(),
    )
}

fn with_marks(window: Window, marks: &[u32]) -> Window
    ensures below { (h : ℕ) → window.last < h → All (IsTickBelow h) marks.now → result.last < h }
    ensures shown { All (IsInWindow result) marks.now }
    ensures wider { ShowsMore window result }
{
    let mut wide = window;
    for mark in marks {
        wide = widened(wide, *mark);
    }
    wide
}

fn with_stretches(window: Window, stretches: &[Stretch]) -> Window
    ensures below { (h : ℕ) → window.last < h → All (BeginsBelow h) stretches.now →
        result.last < h }
    ensures shown { All (IsChangeShown result) stretches.now }
    ensures wider { ShowsMore window result }
{
    let mut wide = window;
    for stretch in stretches {
        wide = with_stretch(wide, stretch);
    }
    wide
}

fn with_stretch(window: Window, stretch: &Stretch) -> Window
    ensures below { (h : ℕ) → window.last < h → BeginsBelow h stretch.now → result.last < h }
    ensures shown { IsChangeShown result stretch.now }
    ensures wider { ShowsMore window result }
{
    if stretch.from > 0 {
        widened(window, stretch.from)
    } else {
        window
    }
}

// Some ticks before and behind; from tick 0 on where that is near; all where nothing happens.
fn padded(window: Window, horizon: u32) -> Window
    requires some { 1 ≤ horizon }
    requires within { window.last < horizon }
    ensures some { result.first ≤ result.last }
    ensures within { result.last < horizon }
    ensures wider { ShowsMore window result }
{
    if window.last < window.first {
        return Window {
            first: 0,
            last: window.last.max(horizon - 1),
        };
    }
    let room = (window.last - window.first) / 12 + 2;
    let first = window.first.saturating_sub(room);
    Window {
        first: if first <= room { 0 } else { first },
        last: window
            .last
            .max(window.last.saturating_add(room).min(horizon - 1)),
    }
}
