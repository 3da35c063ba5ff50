//! All scripts of a swept fault as a table.

ghost use Rattle.std.specs.Prelude.{◌≡◌, IfOk};
ghost use Rattle.std.specs.List.{flat_map};
ghost use Rattle.draw_page.specs.Elements.{column_html, numbered};
ghost use Rattle.draw_page.specs.Sweeps.{case_cells_html, case_row_html, script_heads_html, scripts_head_html, scripts_html};
ghost use Rattle.draw_page.specs.Sweeps.{standing_at, state_html, value_html, values_cell_html};

use crate::badges::standing_mark;
use crate::elements::{cell, column, number_in, row_head, table, words_in};
use crate::page::{Case, Standing, Verdict};
use crate::parts::{around, joined, text_of};
use crate::words::{deadline_words, time_words};
use base_markup::html::{Html, Tag};
use std::alloc::{AllocError, Global};

/// The table of all scripts, folded.
pub fn scripts(
    alloc: Global,
    tick_us: u32,
    cases: &[Case],
    verdicts: &[Verdict],
) -> Result<Html, AllocError>
    ensures { IfOk result (λ html. html.text.items
        ≡ scripts_html tick_us cases.now verdicts.now) }
{
    let head = scripts_head(alloc, verdicts);
    let rows = case_rows(alloc, tick_us, verdicts, cases);
    let table = table(alloc, b"scripts", head, rows);
    let summary = words_in(alloc, Tag::Summary, b"All scripts of the sweep");
    around(alloc, Tag::Details, joined(summary, table))
}

fn scripts_head(alloc: Global, verdicts: &[Verdict]) -> Result<Html, AllocError>
    ensures { IfOk result (λ html. html.text.items ≡ scripts_head_html verdicts.now) }
{
    let cells = joined(script_heads(alloc), terminal_heads(alloc, verdicts));
    around(alloc, Tag::TableHead, around(alloc, Tag::Row, cells))
}

fn script_heads(alloc: Global) -> Result<Html, AllocError>
    ensures { IfOk result (λ html. html.text.items ≡ script_heads_html) }
{
    let two = joined(column(alloc, b"Script"), column(alloc, b"swept times"));
    joined(two, column(alloc, b"deadline in the play"))
}

fn terminal_heads(alloc: Global, verdicts: &[Verdict]) -> Result<Html, AllocError>
    ensures { IfOk result (λ html. html.text.items
        ≡ flat_map (λ v. column_html v.terminal.items) verdicts.now) }
{
    let mut made = Ok(Html::new(alloc));
    for verdict in verdicts {
        made = joined(made, column(alloc, verdict.terminal.as_slice()));
    }
    made
}

fn case_rows(
    alloc: Global,
    tick_us: u32,
    verdicts: &[Verdict],
    cases: &[Case],
) -> Result<Html, AllocError>
    ensures { IfOk result (λ html. html.text.items
        ≡ numbered (case_row_html tick_us verdicts.now) 0 cases.now) }
{
    let mut made = Ok(Html::new(alloc));
    for place in 0..cases.len() {
        made = joined(
            made,
            case_row(alloc, tick_us, verdicts, place, &cases[place]),
        );
    }
    made
}

fn case_row(
    alloc: Global,
    tick_us: u32,
    verdicts: &[Verdict],
    place: usize,
    case: &Case,
) -> Result<Html, AllocError>
    ensures { IfOk result (λ html. html.text.items
        ≡ case_row_html tick_us verdicts.now place case.now) }
{
    let cells = case_cells(alloc, tick_us, case);
    around(
        alloc,
        Tag::Row,
        joined(cells, states(alloc, place, verdicts)),
    )
}

fn case_cells(alloc: Global, tick_us: u32, case: &Case) -> Result<Html, AllocError>
    ensures { IfOk result (λ html. html.text.items ≡ case_cells_html tick_us case.now) }
{
    let name = row_head(alloc, Html::words(alloc, case.name.as_slice()));
    let values = joined(name, values_cell(alloc, tick_us, case.swept.as_slice()));
    let words = deadline_words(alloc, tick_us, case.deadline);
    joined(values, number_in(alloc, b"deadline", words))
}

fn values_cell(alloc: Global, tick_us: u32, swept: &[u32]) -> Result<Html, AllocError>
    ensures { IfOk result (λ html. html.text.items ≡ values_cell_html tick_us swept.now) }
{
    let inside = values(alloc, tick_us, swept);
    cell(alloc, b"number", b"swept times", inside)
}

fn values(alloc: Global, tick_us: u32, swept: &[u32]) -> Result<Html, AllocError>
    ensures { IfOk result (λ html. html.text.items
        ≡ flat_map (value_html tick_us) swept.now) }
{
    let mut made = Html::new(alloc);
    for value in swept {
        made = made.and(&value_of(alloc, tick_us, *value)?)?;
    }
    Ok(made)
}

fn value_of(alloc: Global, tick_us: u32, value: u32) -> Result<Html, AllocError>
    ensures { IfOk result (λ html. html.text.items ≡ value_html tick_us value) }
{
    let words = text_of(alloc, time_words(alloc, tick_us, value));
    around(alloc, Tag::Span, words)
}

// How a script stands at each terminal.
fn states(alloc: Global, place: usize, verdicts: &[Verdict]) -> Result<Html, AllocError>
    ensures { IfOk result (λ html. html.text.items
        ≡ flat_map (state_html place) verdicts.now) }
{
    let mut made = Ok(Html::new(alloc));
    for verdict in verdicts {
        made = joined(made, state(alloc, place, verdict));
    }
    made
}

fn state(alloc: Global, place: usize, verdict: &Verdict) -> Result<Html, AllocError>
    ensures { IfOk result (λ html. html.text.items ≡ state_html place verdict.now) }
{
    let inside = standing_in(alloc, place, verdict.standings.as_slice());
    cell(alloc, b"state", verdict.terminal.as_slice(), inside)
}

fn standing_in(alloc: Global, place: usize, standings: &[Standing]) -> Result<Html, AllocError>
    ensures { IfOk result (λ html. html.text.items ≡ standing_at standings.now place) }
{
    match standings.get(place) {
        Some(standing) => standing_mark(alloc, *standing),
        None => Ok(Html::new(alloc)),
    }
}
