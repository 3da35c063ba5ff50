//! The matrix of faults and terminals.

ghost use Rattle.std.specs.Prelude.{◌≡◌, IfOk};
ghost use Rattle.std.specs.List.{flat_map};
ghost use Rattle.draw_page.specs.Elements.{numbered};
ghost use Rattle.draw_page.specs.Matrices.{corner_html, fault_row_html, matrix_head_html};
ghost use Rattle.draw_page.specs.Matrices.{matrix_html, matrix_meaning, over_html, terminal_heads_html};
ghost use Rattle.draw_page.specs.Matrices.{three_heads_html, verdict_cells_html};

use crate::anchor::Anchor;
use crate::badges::badge;
use crate::elements::{cell, column, link, number_in, row_head, said_in, section, table};
use crate::page::{Fault, Page, Verdict};
use crate::parts::{around, element, joined};
use crate::words::{left_words, trip_words};
use base_markup::html::{Attribute, Html, Key, Tag};
use model_line::kind_word;
use std::alloc::{AllocError, Global};

/// The section with the matrix, behind what its numbers mean: a row for each fault, three cells for each terminal.
pub fn matrix(alloc: Global, page: &Page) -> Result<Html, AllocError>
    ensures { IfOk result (λ html. html.text.items ≡ matrix_html page.now) }
{
    let head = matrix_head(alloc, page.terminals.as_slice());
    let rows = fault_rows(alloc, page.tick_us, page.faults.as_slice());
    let table = table(alloc, b"matrix", head, rows);
    section(
        alloc,
        Anchor::Verdicts,
        b"Verdicts",
        joined(meaning(alloc), table),
    )
}

// What the numbers mean, and from when they count.
#[tactic(auto, unfolding(crate::specs::Matrices::matrix_meaning))]
fn meaning(alloc: Global) -> Result<Html, AllocError>
    ensures { IfOk result (λ html. html.text.items ≡ matrix_meaning) }
{
    said_in(
        alloc,
        Tag::Paragraph,
        b"small",
        b"First trip: no choice of times trips before the first number, and every choice has tripped by the second, in milliseconds after the inception of the fault; of a swept fault that is so of the script that does worst there. Margin: from the second to the deadline; where no trip may come, what the fault has to spare: the least, over every choice of times, from what holds the trip back to what would let it through, known where the interval rules say that no script trips. Drawings and reasons count from the beginning of the play; a drawing marks the inception.",
    )
}

// Two rows: the terminals, and below each its three columns.
fn matrix_head(alloc: Global, terminals: &[Vec<u8>]) -> Result<Html, AllocError>
    ensures { IfOk result (λ html. html.text.items ≡ matrix_head_html terminals.now) }
{
    let corners = joined(corner(alloc, b"Fault"), corner(alloc, b"Kind"));
    let heads = joined(corners, terminal_heads(alloc, terminals));
    let over = around(alloc, Tag::Row, heads);
    let under = around(alloc, Tag::Row, three_heads(alloc, terminals));
    around(alloc, Tag::TableHead, joined(over, under))
}

// The head of a column, beside both rows.
fn corner(alloc: Global, words: &[u8]) -> Result<Html, AllocError>
    ensures { IfOk result (λ html. html.text.items ≡ corner_html words.now) }
{
    let scope = Attribute {
        key: Key::Scope,
        words: b"col",
    };
    let both = Attribute {
        key: Key::Rowspan,
        words: b"2",
    };
    let inside = Html::words(alloc, words);
    element(alloc, Tag::HeadCell, &[scope, both], inside)
}

// A terminal, over its three columns.
fn over(alloc: Global, terminal: &[u8]) -> Result<Html, AllocError>
    ensures { IfOk result (λ html. html.text.items ≡ over_html terminal.now) }
{
    let scope = Attribute {
        key: Key::Scope,
        words: b"colgroup",
    };
    let three = Attribute {
        key: Key::Colspan,
        words: b"3",
    };
    let inside = Html::words(alloc, terminal);
    element(alloc, Tag::HeadCell, &[scope, three], inside)
}

fn terminal_heads(alloc: Global, terminals: &[Vec<u8>]) -> Result<Html, AllocError>
    ensures { IfOk result (λ html. html.text.items ≡ terminal_heads_html terminals.now) }
{
    let mut made = Ok(Html::new(alloc));
    for terminal in terminals {
        made = joined(made, over(alloc, terminal.as_slice()));
    }
    made
}

fn three_heads(alloc: Global, terminals: &[Vec<u8>]) -> Result<Html, AllocError>
    ensures { IfOk result (λ html. html.text.items
        ≡ flat_map (λ terminal. three_heads_html) terminals.now) }
{
    let mut made = Ok(Html::new(alloc));
    for _terminal in terminals {
        made = joined(made, three_columns(alloc));
    }
    made
}

fn three_columns(alloc: Global) -> Result<Html, AllocError>
    ensures { IfOk result (λ html. html.text.items ≡ three_heads_html) }
{
    let two = joined(column(alloc, b"verdict"), column(alloc, b"first trip"));
    joined(two, column(alloc, b"margin"))
}

fn fault_rows(alloc: Global, tick_us: u32, faults: &[Fault]) -> Result<Html, AllocError>
    ensures { IfOk result (λ html. html.text.items
        ≡ numbered (fault_row_html tick_us) 0 faults.now) }
{
    let mut made = Ok(Html::new(alloc));
    for place in 0..faults.len() {
        made = joined(made, fault_row(alloc, tick_us, place, &faults[place]));
    }
    made
}

fn fault_row(alloc: Global, tick_us: u32, place: usize, fault: &Fault) -> Result<Html, AllocError>
    ensures { IfOk result (λ html. html.text.items ≡ fault_row_html tick_us place fault.now) }
{
    let to = Anchor::Fault(place);
    let name = row_head(alloc, link(alloc, to, fault.name.as_slice()));
    let kind = Html::words(alloc, kind_word(fault.kind));
    let named = joined(name, cell(alloc, b"kind", b"kind", kind));
    let verdicts = verdict_cells(alloc, tick_us, fault.verdicts.as_slice());
    around(alloc, Tag::Row, joined(named, verdicts))
}

fn verdict_cells(alloc: Global, tick_us: u32, verdicts: &[Verdict]) -> Result<Html, AllocError>
    ensures { IfOk result (λ html. html.text.items
        ≡ flat_map (verdict_cells_html tick_us) verdicts.now) }
{
    let mut made = Ok(Html::new(alloc));
    for verdict in verdicts {
        made = joined(made, three_cells(alloc, tick_us, verdict));
    }
    made
}

// How a fault stands at a terminal, its first trip and its margin.
fn three_cells(alloc: Global, tick_us: u32, verdict: &Verdict) -> Result<Html, AllocError>
    ensures { IfOk result (λ html. html.text.items ≡ verdict_cells_html tick_us verdict.now) }
{
    let badge = badge(alloc, verdict.standings.as_slice());
    let state = cell(alloc, b"state", verdict.terminal.as_slice(), badge);
    let words = trip_words(alloc, tick_us, verdict.may, verdict.must);
    let trip = joined(state, number_in(alloc, b"first trip", words));
    let words = left_words(alloc, tick_us, verdict);
    joined(trip, number_in(alloc, b"margin", words))
}
