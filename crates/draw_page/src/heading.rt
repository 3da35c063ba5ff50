//! The head of the page: what it is of, and the counts in large.

ghost use Rattle.std.specs.Prelude.{◌≡◌, ℕ, List, IfOk, codes};
ghost use Rattle.base_markup.specs.declared.html.tag.Tag.TheVariants as tag;
ghost use Rattle.base_markup.specs.{html.Words.words_text};
ghost use Rattle.draw_page.specs.Elements.{said_in_html};
ghost use Rattle.draw_page.specs.Headings.{answer_links_html, contents_html, count_html};
ghost use Rattle.draw_page.specs.Headings.{counts_html, every_html, failing_html, header_html};
ghost use Rattle.draw_page.specs.Headings.{held_html};
ghost use Rattle.draw_page.specs.Headings.{least_html, link_item_html, meaning_html, notes_html};
ghost use Rattle.draw_page.specs.Headings.{spare_html};
ghost use Rattle.draw_page.specs.Nearest.{near_view};
ghost use Rattle.draw_page.specs.Words.{time_said};
ghost use Rattle.draw_page.specs.Headings.{other_links_html, subject_said, undecided_html};
ghost use Rattle.draw_page.specs.Headings.{tile_class as class_of_tile, tile_html, tiles_html, zone_said};

use crate::anchor::Anchor;
use crate::block::block;
use crate::elements::{link, said_in, words_in};
use crate::nearest::{Near, nearest};
use crate::page::{Counts, LeastMargin, Page};
use crate::parts::{around, classed_around, element, joined, text_of};
use crate::words::{number_words, ticks_words, time_words, words_of};
use base_markup::html::{Attribute, Html, Key, Tag};
use itoa::Buffer;
use std::alloc::{AllocError, Global};

/// The head of the page.
pub fn header(alloc: Global, page: &Page) -> Result<Html, AllocError>
    ensures { IfOk result (λ html. html.text.items ≡ header_html page.now) }
{
    let title = words_in(alloc, Tag::Heading1, page.title.as_slice());
    let subject = joined(title, subject(alloc, page));
    let block = joined(subject, block(alloc, page));
    let meaning = joined(joined(block, tiles(alloc, page)), meaning(alloc));
    let notes = joined(meaning, notes(alloc, page.notes.as_slice()));
    around(alloc, Tag::Header, joined(notes, contents(alloc)))
}

fn subject(alloc: Global, page: &Page) -> Result<Html, AllocError>
    ensures { IfOk result (λ html. html.text.items
        ≡ said_in_html tag.Paragraph (codes "subject") (subject_said page.now)) }
{
    let words = text_of(alloc, subject_words(alloc, page));
    classed_around(alloc, Tag::Paragraph, b"subject", words)
}

// The scheme, the terminals and the ticks.
#[tactic(auto, unfolding(crate::specs::Headings::subject_said))]
fn subject_words(alloc: Global, page: &Page) -> Result<Vec<u8>, AllocError>
    ensures { IfOk result (λ text. text.items ≡ subject_said page.now) }
{
    let mut digits = Buffer::new();
    let terminals = digits.format(page.terminals.len()).as_bytes();
    let horizon = ticks_words(alloc, page.tick_us, page.horizon)?;
    let tick = ticks_words(alloc, page.tick_us, 1)?;
    words_of(
        alloc,
        &[
            page.scheme.as_slice(),
            b", ",
            terminals,
            b" terminals; ",
            zone_words(page.zone1_trip),
            horizon.as_slice(),
            b" ms are judged, in ticks of ",
            tick.as_slice(),
            b" ms.",
        ],
    )
}

fn zone_words<'a>(trips: bool) -> &'a [u8]
    ensures { result.now ≡ zone_said trips }
{
    if trips {
        b"zone 1 trips by itself. "
    } else {
        b"zone 1 does not trip by itself. "
    }
}

// The counts, and the least margins.
fn tiles(alloc: Global, page: &Page) -> Result<Html, AllocError>
    ensures { IfOk result (λ html. html.text.items ≡ tiles_html page.now) }
{
    let counts = joined(
        counts(alloc, page.counts),
        least_tile(alloc, page.tick_us, &page.least),
    );
    let spare = spare_tile(alloc, page.tick_us, nearest(page.faults.as_slice()));
    classed_around(alloc, Tag::Division, b"tiles", joined(counts, spare))
}

fn counts(alloc: Global, counts: Counts) -> Result<Html, AllocError>
    ensures { IfOk result (λ html. html.text.items ≡ counts_html counts) }
{
    let failing = joined(held(alloc, counts.held), failing(alloc, counts.fails));
    let every = joined(failing, every(alloc, counts.every));
    joined(every, undecided(alloc, counts.undecided))
}

#[tactic(auto, unfolding(crate::specs::Headings::held_html))]
fn held(alloc: Global, count: u32) -> Result<Html, AllocError>
    ensures { IfOk result (λ html. html.text.items ≡ held_html count) }
{
    tile(alloc, b"tile yes", count, b"held for every choice")
}

#[tactic(auto, unfolding(crate::specs::Headings::failing_html))]
fn failing(alloc: Global, count: u32) -> Result<Html, AllocError>
    ensures { IfOk result (λ html. html.text.items ≡ failing_html count) }
{
    tile(alloc, b"tile no", count, b"fail for some choice")
}

#[tactic(auto, unfolding(crate::specs::Headings::every_html))]
fn every(alloc: Global, count: u32) -> Result<Html, AllocError>
    ensures { IfOk result (λ html. html.text.items ≡ every_html count) }
{
    tile(alloc, b"tile no", count, b"of these for every choice")
}

#[tactic(auto, unfolding(crate::specs::Headings::undecided_html))]
fn undecided(alloc: Global, count: u32) -> Result<Html, AllocError>
    ensures { IfOk result (λ html. html.text.items ≡ undecided_html count) }
{
    tile(alloc, b"tile unknown", count, b"open")
}

// A number in large, and what it counts.
fn tile(alloc: Global, class: &[u8], number: u32, words: &[u8]) -> Result<Html, AllocError>
    ensures { IfOk result (λ html. html.text.items
        ≡ count_html class.now number words.now) }
{
    let count = text_of(alloc, number_words(alloc, number as usize));
    let words = Html::words(alloc, words);
    tile_of(alloc, tile_class(class, number), count, words)
}

// Of nothing a quiet look.
fn tile_class<'a>(class: &'a [u8], number: u32) -> &'a [u8]
    ensures { result.now ≡ class_of_tile class.now number }
{
    if number == 0 { b"tile none" } else { class }
}

fn tile_of(
    alloc: Global,
    class: &[u8],
    number: Result<Html, AllocError>,
    words: Result<Html, AllocError>,
) -> Result<Html, AllocError>
    ensures { (n w : List ℕ) → IfOk number (λ html. html.text.items ≡ words_text n)
        → IfOk words (λ html. html.text.items ≡ words_text w)
        → IfOk result (λ html. html.text.items ≡ tile_html class.now n w) }
{
    let number = around(alloc, Tag::Strong, number);
    let inside = joined(number, around(alloc, Tag::Span, words));
    classed_around(alloc, Tag::Division, class, inside)
}

fn least_tile(alloc: Global, tick_us: u32, least: &Option<LeastMargin>) -> Result<Html, AllocError>
    ensures { IfOk result (λ html. html.text.items ≡ least_html tick_us least.now) }
{
    match least {
        Some(least) => {
            let words = words_of(
                alloc,
                &[b"least dependability margin by rule: ", least.at.as_slice()],
            );
            margin_tile(alloc, tick_us, least.ticks, words)
        }
        None => Ok(Html::new(alloc)),
    }
}

fn spare_tile(alloc: Global, tick_us: u32, near: Option<Near<'_>>) -> Result<Html, AllocError>
    ensures { IfOk result (λ html. html.text.items ≡ spare_html tick_us (near_view near.entry)) }
{
    match near {
        Some(near) => {
            let words = words_of(
                alloc,
                &[
                    b"least security margin by rule: ",
                    near.fault,
                    b" at ",
                    near.terminal,
                ],
            );
            margin_tile(alloc, tick_us, near.ticks, words)
        }
        None => Ok(Html::new(alloc)),
    }
}

// A time in large, and what it is.
fn margin_tile(
    alloc: Global,
    tick_us: u32,
    ticks: u32,
    words: Result<Vec<u8>, AllocError>,
) -> Result<Html, AllocError>
    ensures { (w : List ℕ) → IfOk words (λ text. text.items ≡ w)
        → IfOk result (λ html. html.text.items ≡ tile_html (codes "tile") (time_said tick_us ticks) w) }
{
    let number = text_of(alloc, time_words(alloc, tick_us, ticks));
    tile_of(alloc, b"tile", number, text_of(alloc, words))
}

// What the three words mean.
#[tactic(auto, unfolding(crate::specs::Headings::meaning_html))]
fn meaning(alloc: Global) -> Result<Html, AllocError>
    ensures { IfOk result (λ html. html.text.items ≡ meaning_html) }
{
    said_in(
        alloc,
        Tag::Paragraph,
        b"small",
        b"Held: every choice of times inside the declared intervals meets the obligation, fractions of a tick included. Fails: a choice inside them, shown below, does not. Open: neither is known.",
    )
}

// Lines that say what is left out.
fn notes(alloc: Global, notes: &[Vec<u8>]) -> Result<Html, AllocError>
    ensures { IfOk result (λ html. html.text.items ≡ notes_html notes.now) }
{
    let mut made = Ok(Html::new(alloc));
    for note in notes {
        made = joined(
            made,
            said_in(alloc, Tag::Paragraph, b"note", note.as_slice()),
        );
    }
    made
}

// Links to the sections.
fn contents(alloc: Global) -> Result<Html, AllocError>
    ensures { IfOk result (λ html. html.text.items ≡ contents_html) }
{
    let label = Attribute {
        key: Key::AriaLabel,
        words: b"Contents",
    };
    let items = joined(answer_links(alloc), other_links(alloc));
    element(alloc, Tag::Nav, &[label], around(alloc, Tag::List, items))
}

fn answer_links(alloc: Global) -> Result<Html, AllocError>
    ensures { IfOk result (λ html. html.text.items ≡ answer_links_html) }
{
    let verdicts = link_item(alloc, Anchor::Verdicts, b"Verdicts");
    let signed = joined(verdicts, link_item(alloc, Anchor::Signature, b"Signature"));
    let failing = link_item(alloc, Anchor::Failing, b"Failing choices");
    let open = link_item(alloc, Anchor::Open, b"Open");
    joined(joined(signed, failing), open)
}

fn other_links(alloc: Global) -> Result<Html, AllocError>
    ensures { IfOk result (λ html. html.text.items ≡ other_links_html) }
{
    let times = link_item(alloc, Anchor::Times, b"Times");
    let faults = joined(times, link_item(alloc, Anchor::Faults, b"Faults"));
    joined(faults, link_item(alloc, Anchor::Files, b"Files"))
}

fn link_item(alloc: Global, anchor: Anchor, words: &[u8]) -> Result<Html, AllocError>
    ensures { IfOk result (λ html. html.text.items ≡ link_item_html anchor words.now) }
{
    around(alloc, Tag::Item, link(alloc, anchor, words))
}
