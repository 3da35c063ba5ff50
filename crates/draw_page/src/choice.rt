//! The choices of delays that fail an obligation.

ghost use Rattle.std.specs.Prelude.{◌≡◌, IfOk};
ghost use Rattle.std.specs.List.{flat_map};
ghost use Rattle.draw_page.specs.Choices.{choice_heading_html, choice_html, every_html};
ghost use Rattle.draw_page.specs.Choices.{failing_html, some_every_html};
ghost use Rattle.draw_page.specs.Choices.{least_html, least_name_html, middle_html, name_html};
ghost use Rattle.draw_page.specs.Choices.{none_failing_html, some_failing_html, some_least_html};
ghost use Rattle.draw_page.specs.Choices.{some_steps_html, step_row_html, steps_html, told_html};
ghost use Rattle.draw_page.specs.Choices.{none_told_html, some_told_html, told_row_html};
ghost use Rattle.draw_page.specs.Choices.{several_html, some_several_html, until_said};

use crate::anchor::Anchor;
use crate::drawings::figure;
use crate::elements::{columns, link, number_in, row_head, said_in, section, table, words_in};
use crate::page::{FailingChoice, Page, ToldStep, ToldTime};
use crate::parts::{around, classed_around, joined, text_of};
use crate::words::{interval_words, time_words, words_of};
use base_markup::html::{Html, Tag};
use itoa::Buffer;
use std::alloc::{AllocError, Global};

/// The section of the choices that fail.
pub fn failing(alloc: Global, page: &Page) -> Result<Html, AllocError>
    ensures { IfOk result (λ html. html.text.items ≡ failing_html page.now) }
{
    let inside = some_failing(alloc, page.tick_us, page.failing.as_slice());
    section(alloc, Anchor::Failing, b"Choices that fail", inside)
}

fn some_failing(alloc: Global, tick_us: u32, failing: &[FailingChoice]) -> Result<Html, AllocError>
    ensures { IfOk result (λ html. html.text.items ≡ some_failing_html tick_us failing.now) }
{
    match failing {
        [] => none_failing(alloc),
        [_, ..] => choices(alloc, tick_us, failing),
    }
}

#[tactic(auto, unfolding(crate::specs::Choices::none_failing_html))]
fn none_failing(alloc: Global) -> Result<Html, AllocError>
    ensures { IfOk result (λ html. html.text.items ≡ none_failing_html) }
{
    words_in(alloc, Tag::Paragraph, b"No obligation fails.")
}

fn choices(alloc: Global, tick_us: u32, failing: &[FailingChoice]) -> Result<Html, AllocError>
    ensures { IfOk result (λ html. html.text.items
        ≡ flat_map (choice_html tick_us) failing.now) }
{
    let mut made = Ok(Html::new(alloc));
    for choice in failing {
        made = joined(made, one_choice(alloc, tick_us, choice));
    }
    made
}

// A choice: its heading, why it fails, its times and steps, and its play.
fn one_choice(alloc: Global, tick_us: u32, choice: &FailingChoice) -> Result<Html, AllocError>
    ensures { IfOk result (λ html. html.text.items ≡ choice_html tick_us choice.now) }
{
    let named = joined(heading(alloc, choice), some_several(alloc, choice.scripts));
    let why = said_in(alloc, Tag::Preformatted, b"why", choice.why.as_slice());
    let reason = joined(named, why);
    let head = joined(reason, some_every(alloc, choice.every));
    let told = joined(head, some_told(alloc, tick_us, choice.told.as_slice()));
    let steps = joined(told, some_steps(alloc, tick_us, choice.steps.as_slice()));
    let all = joined(steps, rest(alloc, choice.least.as_slice()));
    around(
        alloc,
        Tag::Section,
        joined(all, figure(alloc, &choice.play)),
    )
}

// The script, with a link to its fault, and the terminal.
fn heading(alloc: Global, choice: &FailingChoice) -> Result<Html, AllocError>
    ensures { IfOk result (λ html. html.text.items ≡ choice_heading_html choice.now) }
{
    let to = Anchor::Fault(choice.fault as usize);
    let script = link(alloc, to, choice.script.as_slice());
    let until = joined(script, text_of(alloc, until_words(alloc, choice)));
    let at = joined(until, Html::words(alloc, b" at "));
    let terminal = Html::words(alloc, choice.terminal.as_slice());
    around(alloc, Tag::Heading3, joined(at, terminal))
}

// Up to which script, if there are several.
fn until_words(alloc: Global, choice: &FailingChoice) -> Result<Vec<u8>, AllocError>
    ensures { IfOk result (λ text. text.items ≡ until_said choice.now) }
{
    if choice.scripts <= 1 {
        return Ok(Vec::new(alloc));
    }
    words_of(alloc, &[b" to ", choice.last.as_slice()])
}

// How many scripts there are, if there are several.
fn some_several(alloc: Global, scripts: u32) -> Result<Html, AllocError>
    ensures { IfOk result (λ html. html.text.items ≡ some_several_html scripts) }
{
    if scripts <= 1 {
        Ok(Html::new(alloc))
    } else {
        several(alloc, scripts)
    }
}

fn several(alloc: Global, scripts: u32) -> Result<Html, AllocError>
    ensures { IfOk result (λ html. html.text.items ≡ several_html scripts) }
{
    let mut digits = Buffer::new();
    let words = words_of(
        alloc,
        &[
            digits.format(scripts).as_bytes(),
            b" scripts of the fault, one after another, fail there; shown is a choice that fails the first.",
        ],
    );
    around(alloc, Tag::Paragraph, text_of(alloc, words))
}

// That every choice fails, if it does.
fn some_every(alloc: Global, every: bool) -> Result<Html, AllocError>
    ensures { IfOk result (λ html. html.text.items ≡ some_every_html every) }
{
    if every {
        every_fails(alloc)
    } else {
        Ok(Html::new(alloc))
    }
}

#[tactic(auto, unfolding(crate::specs::Choices::every_html))]
fn every_fails(alloc: Global) -> Result<Html, AllocError>
    ensures { IfOk result (λ html. html.text.items ≡ every_html) }
{
    words_in(
        alloc,
        Tag::Paragraph,
        b"Every choice inside the declared intervals fails it; this is one of them.",
    )
}

// The times that matter, if any does.
fn some_told(alloc: Global, tick_us: u32, times: &[ToldTime]) -> Result<Html, AllocError>
    ensures { IfOk result (λ html. html.text.items ≡ some_told_html tick_us times.now) }
{
    match times {
        [] => none_told(alloc),
        [_, ..] => told(alloc, tick_us, times),
    }
}

#[tactic(auto, unfolding(crate::specs::Choices::none_told_html))]
fn none_told(alloc: Global) -> Result<Html, AllocError>
    ensures { IfOk result (λ html. html.text.items ≡ none_told_html) }
{
    words_in(
        alloc,
        Tag::Paragraph,
        b"It fails with each time in the middle of its interval or at its declared least.",
    )
}

fn told(alloc: Global, tick_us: u32, told: &[ToldTime]) -> Result<Html, AllocError>
    ensures { IfOk result (λ html. html.text.items ≡ told_html tick_us told.now) }
{
    let head = columns(alloc, &[b"Time that matters", b"here", b"declared"]);
    table(alloc, b"told", head, told_rows(alloc, tick_us, told))
}

fn told_rows(alloc: Global, tick_us: u32, told: &[ToldTime]) -> Result<Html, AllocError>
    ensures { IfOk result (λ html. html.text.items
        ≡ flat_map (told_row_html tick_us) told.now) }
{
    let mut made = Ok(Html::new(alloc));
    for time in told {
        made = joined(made, told_row(alloc, tick_us, time));
    }
    made
}

fn told_row(alloc: Global, tick_us: u32, time: &ToldTime) -> Result<Html, AllocError>
    ensures { IfOk result (λ html. html.text.items ≡ told_row_html tick_us time.now) }
{
    let name = row_head(alloc, words_in(alloc, Tag::Code, time.name.as_slice()));
    let here = number_in(alloc, b"here", time_words(alloc, tick_us, time.number));
    let words = interval_words(alloc, tick_us, time.low, time.high);
    let cells = joined(joined(name, here), number_in(alloc, b"declared", words));
    around(alloc, Tag::Row, cells)
}

// Where delays move; nothing where none does.
fn some_steps(alloc: Global, tick_us: u32, steps: &[ToldStep]) -> Result<Html, AllocError>
    ensures { IfOk result (λ html. html.text.items ≡ some_steps_html tick_us steps.now) }
{
    match steps {
        [] => Ok(Html::new(alloc)),
        [_, ..] => step_table(alloc, tick_us, steps),
    }
}

fn step_table(alloc: Global, tick_us: u32, steps: &[ToldStep]) -> Result<Html, AllocError>
    ensures { IfOk result (λ html. html.text.items ≡ steps_html tick_us steps.now) }
{
    let head = columns(alloc, &[b"Delay that moves", b"from", b"is"]);
    table(alloc, b"told", head, step_rows(alloc, tick_us, steps))
}

fn step_rows(alloc: Global, tick_us: u32, steps: &[ToldStep]) -> Result<Html, AllocError>
    ensures { IfOk result (λ html. html.text.items
        ≡ flat_map (step_row_html tick_us) steps.now) }
{
    let mut made = Ok(Html::new(alloc));
    for step in steps {
        made = joined(made, step_row(alloc, tick_us, step));
    }
    made
}

fn step_row(alloc: Global, tick_us: u32, step: &ToldStep) -> Result<Html, AllocError>
    ensures { IfOk result (λ html. html.text.items ≡ step_row_html tick_us step.now) }
{
    let name = row_head(alloc, words_in(alloc, Tag::Code, step.name.as_slice()));
    let from = number_in(alloc, b"from", time_words(alloc, tick_us, step.from));
    let is = number_in(alloc, b"is", time_words(alloc, tick_us, step.number));
    around(alloc, Tag::Row, joined(joined(name, from), is))
}

// Where the other times stand.
fn rest(alloc: Global, least: &[Vec<u8>]) -> Result<Html, AllocError>
    ensures { IfOk result (λ html. html.text.items ≡ least_html least.now) }
{
    match least {
        [] => all_in_the_middle(alloc),
        [_, ..] => some_least(alloc, least),
    }
}

#[tactic(auto, unfolding(crate::specs::Choices::middle_html))]
fn all_in_the_middle(alloc: Global) -> Result<Html, AllocError>
    ensures { IfOk result (λ html. html.text.items ≡ middle_html) }
{
    said_in(
        alloc,
        Tag::Paragraph,
        b"small",
        b"All other times stand in the middle of their intervals.",
    )
}

fn some_least(alloc: Global, least: &[Vec<u8>]) -> Result<Html, AllocError>
    ensures { IfOk result (λ html. html.text.items ≡ some_least_html least.now) }
{
    let words = Html::words(
        alloc,
        b"All other times stand in the middle of their intervals, but these at their declared least:",
    );
    let inside = joined(words, least_names(alloc, least));
    classed_around(alloc, Tag::Paragraph, b"small", inside)
}

fn least_names(alloc: Global, least: &[Vec<u8>]) -> Result<Html, AllocError>
    ensures { IfOk result (λ html. html.text.items ≡ flat_map least_name_html least.now) }
{
    let mut made = Ok(Html::new(alloc));
    for name in least {
        made = joined(made, least_name(alloc, name.as_slice()));
    }
    made
}

fn least_name(alloc: Global, name: &[u8]) -> Result<Html, AllocError>
    ensures { IfOk result (λ html. html.text.items ≡ name_html name.now) }
{
    joined(Html::words(alloc, b" "), words_in(alloc, Tag::Code, name))
}
