//! The obligations that are open.

ghost use Rattle.std.specs.Prelude.{◌≡◌, IfOk};
ghost use Rattle.std.specs.List.{flat_map};
ghost use Rattle.draw_page.specs.Opens.{none_open_html, open_html, open_row_html, open_table_html};
ghost use Rattle.draw_page.specs.Opens.{some_open_html};

use crate::anchor::Anchor;
use crate::elements::{columns, link, number_cell, row_head, section, table, words_in};
use crate::page::{Page, Undecided};
use crate::parts::{around, joined};
use base_markup::html::{Html, Tag};
use std::alloc::{AllocError, Global};

/// The section of what is open.
pub fn undecided(alloc: Global, page: &Page) -> Result<Html, AllocError>
    ensures { IfOk result (λ html. html.text.items ≡ open_html page.now) }
{
    let inside = some_open(alloc, page.undecided.as_slice());
    section(alloc, Anchor::Open, b"Open obligations", inside)
}

fn some_open(alloc: Global, all: &[Undecided]) -> Result<Html, AllocError>
    ensures { IfOk result (λ html. html.text.items ≡ some_open_html all.now) }
{
    match all {
        [] => none_open(alloc),
        [_, ..] => open_table(alloc, all),
    }
}

#[tactic(auto, unfolding(crate::specs::Opens::none_open_html))]
fn none_open(alloc: Global) -> Result<Html, AllocError>
    ensures { IfOk result (λ html. html.text.items ≡ none_open_html) }
{
    words_in(alloc, Tag::Paragraph, b"No obligation is open.")
}

fn open_table(alloc: Global, all: &[Undecided]) -> Result<Html, AllocError>
    ensures { IfOk result (λ html. html.text.items ≡ open_table_html all.now) }
{
    let head = columns(alloc, &[b"Script", b"terminal"]);
    table(alloc, b"told", head, open_rows(alloc, all))
}

fn open_rows(alloc: Global, all: &[Undecided]) -> Result<Html, AllocError>
    ensures { IfOk result (λ html. html.text.items ≡ flat_map open_row_html all.now) }
{
    let mut made = Ok(Html::new(alloc));
    for one in all {
        made = joined(made, open_row(alloc, one));
    }
    made
}

fn open_row(alloc: Global, one: &Undecided) -> Result<Html, AllocError>
    ensures { IfOk result (λ html. html.text.items ≡ open_row_html one.now) }
{
    let to = Anchor::Fault(one.fault as usize);
    let script = row_head(alloc, link(alloc, to, one.script.as_slice()));
    let terminal = number_cell(alloc, b"terminal", one.terminal.as_slice());
    around(alloc, Tag::Row, joined(script, terminal))
}
