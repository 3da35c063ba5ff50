//! The table of times.

ghost use Rattle.std.specs.Prelude.{◌≡◌, ◌≤◌, ◌++◌, IfOk};
ghost use Rattle.std.specs.List.{flat_map};
ghost use Rattle.draw_page.specs.Elements.{column_html};
ghost use Rattle.draw_page.specs.Times.{lost_html, margin_columns_html, no_times_html, reach_said, slack_html};
ghost use Rattle.draw_page.specs.Times.{time_row_html, times_head_html, times_html, times_meaning};
ghost use Rattle.draw_page.specs.Times.{some_times_html, times_table_html};
ghost use Rattle.draw_page.specs.Times.{bar_cell_html, slack_cell_html, time_cells_html};

use crate::anchor::Anchor;
use crate::bar::{bar, reach};
use crate::bare::bare_cell;
use crate::drawings::drawing;
use crate::elements::{
    cell, column, head_cell, number_in, row_head, said_in, section, table, words_in,
};
use crate::page::{Page, Slack, Time};
use crate::parts::{around, joined, text_of};
use crate::words::{interval_words, time_words, timed_words};
use base_markup::html::{Html, Tag};
use std::alloc::{AllocError, Global};

/// The section of the times and their margins.
pub fn times(alloc: Global, page: &Page) -> Result<Html, AllocError>
    ensures { IfOk result (λ html. html.text.items ≡ times_html page.now) }
{
    let inside = some_times(alloc, page.tick_us, page.times.as_slice());
    section(alloc, Anchor::Times, b"Times and margins", inside)
}

fn some_times(alloc: Global, tick_us: u32, times: &[Time]) -> Result<Html, AllocError>
    ensures { IfOk result (λ html. html.text.items ≡ some_times_html tick_us times.now) }
{
    match times {
        [] => no_times(alloc),
        [_, ..] => times_table(alloc, tick_us, times),
    }
}

#[tactic(auto, unfolding(crate::specs::Times::no_times_html))]
fn no_times(alloc: Global) -> Result<Html, AllocError>
    ensures { IfOk result (λ html. html.text.items ≡ no_times_html) }
{
    words_in(alloc, Tag::Paragraph, b"No margins were worked out.")
}

#[tactic(auto, unfolding(crate::specs::Times::times_meaning))]
fn meaning(alloc: Global) -> Result<Html, AllocError>
    ensures { IfOk result (λ html. html.text.items ≡ times_meaning) }
{
    said_in(
        alloc,
        Tag::Paragraph,
        b"small",
        b"To spare: how far one end alone can move outward, all else as declared, with each obligation that the interval rules hold still held, and what is lost first beyond. One that is held by parts, cases or a corner alone is left out. Not tested: none is lost, however far the end moves, so the study asks nothing of it; that is a gap of coverage and no room. A full bar is the declared interval, a thin one how far its ends can go.",
    )
}

// What the columns mean, and the table.
fn times_table(alloc: Global, tick_us: u32, times: &[Time]) -> Result<Html, AllocError>
    ensures { IfOk result (λ html. html.text.items
        ≡ times_meaning ++ times_table_html tick_us times.now) }
{
    let reach = reach(times);
    let head = times_head(alloc, tick_us, reach);
    let rows = time_rows(alloc, tick_us, reach, times);
    joined(meaning(alloc), table(alloc, b"times", head, rows))
}

fn times_head(alloc: Global, tick_us: u32, reach: u32) -> Result<Html, AllocError>
    ensures { IfOk result (λ html. html.text.items ≡ times_head_html tick_us reach) }
{
    let cells = joined(margin_columns(alloc), reach_column(alloc, tick_us, reach));
    around(alloc, Tag::TableHead, around(alloc, Tag::Row, cells))
}

// From where to where the bars go.
fn reach_column(alloc: Global, tick_us: u32, reach: u32) -> Result<Html, AllocError>
    ensures { IfOk result (λ html. html.text.items ≡ column_html (reach_said tick_us reach)) }
{
    let words = timed_words(alloc, b"0 to ", tick_us, reach);
    head_cell(alloc, b"col", text_of(alloc, words))
}

fn margin_columns(alloc: Global) -> Result<Html, AllocError>
    ensures { IfOk result (λ html. html.text.items ≡ margin_columns_html) }
{
    let two = joined(column(alloc, b"Time"), column(alloc, b"declared"));
    let three = joined(two, column(alloc, b"to spare below"));
    joined(three, column(alloc, b"to spare above"))
}

fn time_rows(alloc: Global, tick_us: u32, reach: u32, times: &[Time]) -> Result<Html, AllocError>
    requires { 1 ≤ reach }
    ensures { IfOk result (λ html. html.text.items
        ≡ flat_map (time_row_html tick_us reach) times.now) }
{
    let mut made = Ok(Html::new(alloc));
    for time in times {
        made = joined(made, time_row(alloc, tick_us, reach, time));
    }
    made
}

fn time_row(alloc: Global, tick_us: u32, reach: u32, time: &Time) -> Result<Html, AllocError>
    requires { 1 ≤ reach }
    ensures { IfOk result (λ html. html.text.items ≡ time_row_html tick_us reach time.now) }
{
    let cells = time_cells(alloc, tick_us, time);
    around(
        alloc,
        Tag::Row,
        joined(cells, bar_cell(alloc, tick_us, reach, time)),
    )
}

fn time_cells(alloc: Global, tick_us: u32, time: &Time) -> Result<Html, AllocError>
    ensures { IfOk result (λ html. html.text.items ≡ time_cells_html tick_us time.now) }
{
    let name = row_head(alloc, words_in(alloc, Tag::Code, time.name.as_slice()));
    let words = interval_words(alloc, tick_us, time.low, time.high);
    let declared = joined(name, number_in(alloc, b"declared", words));
    let below = slack_cell(alloc, tick_us, b"to spare below", &time.below);
    let above = slack_cell(alloc, tick_us, b"to spare above", &time.above);
    joined(joined(declared, below), above)
}

fn bar_cell(alloc: Global, tick_us: u32, reach: u32, time: &Time) -> Result<Html, AllocError>
    requires { 1 ≤ reach }
    ensures { IfOk result (λ html. html.text.items ≡ bar_cell_html tick_us reach time.now) }
{
    let of = bar(alloc, tick_us, reach, time)?;
    bare_cell(alloc, b"bar", drawing(alloc, &of))
}

fn slack_cell(alloc: Global, tick_us: u32, label: &[u8], of: &Slack) -> Result<Html, AllocError>
    ensures { IfOk result (λ html. html.text.items
        ≡ slack_cell_html tick_us label.now of.now) }
{
    cell(alloc, b"number", label, slack(alloc, tick_us, of))
}

// How far an end can move, and what is lost first beyond.
fn slack(alloc: Global, tick_us: u32, slack: &Slack) -> Result<Html, AllocError>
    ensures { IfOk result (λ html. html.text.items ≡ slack_html tick_us slack.now) }
{
    match &slack.lost {
        Some(lost) => bounded(alloc, tick_us, slack.ticks, lost.as_slice()),
        None => Html::words(alloc, b"not tested"),
    }
}

fn bounded(alloc: Global, tick_us: u32, ticks: u32, lost: &[u8]) -> Result<Html, AllocError>
    ensures { IfOk result (λ html. html.text.items ≡ lost_html tick_us ticks lost.now) }
{
    let spare = text_of(alloc, time_words(alloc, tick_us, ticks));
    joined(spare, said_in(alloc, Tag::Span, b"lost", lost))
}
