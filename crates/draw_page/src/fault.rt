//! The sections of the faults.

ghost use Rattle.std.specs.Prelude.{◌≡◌, ◌++◌, IfOk};
ghost use Rattle.std.specs.List.{flat_map};
ghost use Rattle.draw_page.specs.Elements.{numbered};
ghost use Rattle.draw_page.specs.Faults.{about_html, end_row_html, ends_html, fault_html};
ghost use Rattle.draw_page.specs.Faults.{faults_html, subject_said};
ghost use Rattle.draw_page.specs.Faults.{answer_cells_html, limit_cells_html, swept_html, swept_item_html};
ghost use Rattle.draw_page.specs.Sweeps.{scripts_html, strips_html};

use crate::anchor::Anchor;
use crate::badges::badge;
use crate::bare::bare_cell;
use crate::drawings::figure;
use crate::elements::{cell, columns, number_in, row_head, section, section_at, table, words_in};
use crate::page::{Case, Fault, Page, Verdict};
use crate::parts::{around, joined, text_of};
use crate::scripts::scripts;
use crate::strip::strips;
use crate::words::{by_words, deadline_words, left_words, trip_words, words_of};
use base_markup::html::{Html, Tag};
use itoa::Buffer;
use model_line::kind_word;
use std::alloc::{AllocError, Global};

/// The section of the faults, with a section for each.
pub fn faults(alloc: Global, page: &Page) -> Result<Html, AllocError>
    ensures { IfOk result (λ html. html.text.items ≡ faults_html page.now) }
{
    let inside = fault_sections(alloc, page.tick_us, page.faults.as_slice());
    section(alloc, Anchor::Faults, b"Faults", inside)
}

fn fault_sections(alloc: Global, tick_us: u32, faults: &[Fault]) -> Result<Html, AllocError>
    ensures { IfOk result (λ html. html.text.items
        ≡ numbered (fault_html tick_us) 0 faults.now) }
{
    let mut made = Ok(Html::new(alloc));
    for place in 0..faults.len() {
        made = joined(made, fault_section(alloc, tick_us, place, &faults[place]));
    }
    made
}

fn fault_section(
    alloc: Global,
    tick_us: u32,
    place: usize,
    fault: &Fault,
) -> Result<Html, AllocError>
    ensures { IfOk result (λ html. html.text.items ≡ fault_html tick_us place fault.now) }
{
    let name = words_in(alloc, Tag::Heading3, fault.name.as_slice());
    let about = joined(name, about(alloc, fault));
    let ends = joined(about, ends(alloc, tick_us, fault.verdicts.as_slice()));
    let swept = joined(ends, swept(alloc, tick_us, fault));
    let all = joined(swept, figure(alloc, &fault.bands));
    section_at(alloc, Anchor::Fault(place), all)
}

// The kind, how many scripts, and which one is drawn.
fn about(alloc: Global, fault: &Fault) -> Result<Html, AllocError>
    ensures { IfOk result (λ html. html.text.items ≡ about_html fault.now) }
{
    let words = text_of(alloc, subject_words(alloc, fault));
    let swept = swept_items(alloc, fault.swept.as_slice());
    around(alloc, Tag::Paragraph, joined(words, swept))
}

#[tactic(auto, unfolding(crate::specs::Faults::subject_said))]
fn subject_words<'a>(alloc: Global, fault: &'a Fault) -> Result<Vec<u8>, AllocError>
    ensures { IfOk result (λ text. text.items ≡ subject_said fault.now) }
{
    let mut digits = Buffer::new();
    let count = digits.format(fault.cases.len()).as_bytes();
    let kind: &'a [u8] = kind_word(fault.kind);
    words_of(
        alloc,
        &[
            b"An ",
            kind,
            b" fault. Scripts: ",
            count,
            b". The drawing shows every choice of delays in ",
            fault.shown.as_slice(),
            b".",
        ],
    )
}

// What is swept.
fn swept_items(alloc: Global, swept: &[Vec<u8>]) -> Result<Html, AllocError>
    ensures { IfOk result (λ html. html.text.items
        ≡ flat_map (λ one. swept_item_html one.items) swept.now) }
{
    let mut made = Ok(Html::new(alloc));
    for one in swept {
        made = joined(made, swept_item(alloc, one.as_slice()));
    }
    made
}

fn swept_item(alloc: Global, one: &[u8]) -> Result<Html, AllocError>
    ensures { IfOk result (λ html. html.text.items ≡ swept_item_html one.now) }
{
    let swept = joined(Html::words(alloc, b" Swept: "), Html::words(alloc, one));
    joined(swept, Html::words(alloc, b"."))
}

// How the fault stands at each terminal.
fn ends(alloc: Global, tick_us: u32, verdicts: &[Verdict]) -> Result<Html, AllocError>
    ensures { IfOk result (λ html. html.text.items ≡ ends_html tick_us verdicts.now) }
{
    let head = columns(
        alloc,
        &[
            b"Terminal",
            b"verdict",
            b"first trip",
            b"deadline",
            b"margin",
            b"settled by",
        ],
    );
    table(alloc, b"ends", head, end_rows(alloc, tick_us, verdicts))
}

fn end_rows(alloc: Global, tick_us: u32, verdicts: &[Verdict]) -> Result<Html, AllocError>
    ensures { IfOk result (λ html. html.text.items
        ≡ flat_map (end_row_html tick_us) verdicts.now) }
{
    let mut made = Ok(Html::new(alloc));
    for verdict in verdicts {
        made = joined(made, end_row(alloc, tick_us, verdict));
    }
    made
}

fn end_row(alloc: Global, tick_us: u32, verdict: &Verdict) -> Result<Html, AllocError>
    ensures { IfOk result (λ html. html.text.items ≡ end_row_html tick_us verdict.now) }
{
    let answer = answer_cells(alloc, tick_us, verdict);
    around(
        alloc,
        Tag::Row,
        joined(answer, limit_cells(alloc, tick_us, verdict)),
    )
}

// The terminal, its verdict and its first trip.
fn answer_cells(alloc: Global, tick_us: u32, verdict: &Verdict) -> Result<Html, AllocError>
    ensures { IfOk result (λ html. html.text.items ≡ answer_cells_html tick_us verdict.now) }
{
    let name = row_head(alloc, Html::words(alloc, verdict.terminal.as_slice()));
    let badge = badge(alloc, verdict.standings.as_slice());
    let state = joined(name, bare_cell(alloc, b"state", badge));
    let trip = trip_words(alloc, tick_us, verdict.may, verdict.must);
    joined(state, number_in(alloc, b"first trip", trip))
}

// The deadline, the margin, and by what it was settled.
fn limit_cells(alloc: Global, tick_us: u32, verdict: &Verdict) -> Result<Html, AllocError>
    ensures { IfOk result (λ html. html.text.items ≡ limit_cells_html tick_us verdict.now) }
{
    let words = deadline_words(alloc, tick_us, verdict.deadline);
    let deadline = number_in(alloc, b"deadline", words);
    let words = left_words(alloc, tick_us, verdict);
    let margin = joined(deadline, number_in(alloc, b"margin", words));
    let by = Html::words(alloc, by_words(verdict.by));
    joined(margin, cell(alloc, b"by", b"settled by", by))
}

// The strips and the table of all scripts; nothing of one script alone.
fn swept(alloc: Global, tick_us: u32, fault: &Fault) -> Result<Html, AllocError>
    ensures { IfOk result (λ html. html.text.items ≡ swept_html tick_us fault.now) }
{
    if fault.cases.len() <= 1 {
        return Ok(Html::new(alloc));
    }
    let (cases, verdicts) = (fault.cases.as_slice(), fault.verdicts.as_slice());
    sweep(alloc, tick_us, cases, verdicts)
}

// A strip for each terminal, and all scripts as a table.
fn sweep(
    alloc: Global,
    tick_us: u32,
    cases: &[Case],
    verdicts: &[Verdict],
) -> Result<Html, AllocError>
    ensures { IfOk result (λ html. html.text.items
        ≡ strips_html cases.now verdicts.now ++ scripts_html tick_us cases.now verdicts.now) }
{
    let strips = strips(alloc, cases, verdicts);
    joined(strips, scripts(alloc, tick_us, cases, verdicts))
}
