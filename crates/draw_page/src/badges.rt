//! How obligations stand, by sign and words.

ghost use Rattle.std.specs.Prelude.{◌≡◌, ℕ, List, IfOk, count_by};
ghost use Rattle.base_markup.specs.{html.Words.words_text};
ghost use Rattle.draw_page.specs.Badges.{badge_html, counted_said, is_so, mark_html};
ghost use Rattle.draw_page.specs.Badges.{fails_html, held_html, open_html, standing_html};
ghost use Rattle.draw_page.specs.Badges.{worst_html};

use crate::page::Standing;
use crate::parts::{classed_around, joined, text_of};
use crate::words::words_of;
use base_markup::html::{Html, Sign, Tag};
use itoa::Buffer;
use std::alloc::{AllocError, Global};

// A sign and words behind it.
fn mark(
    alloc: Global,
    class: &[u8],
    sign: Sign,
    words: Result<Html, AllocError>,
) -> Result<Html, AllocError>
    ensures { (t : List ℕ) → IfOk words (λ html. html.text.items ≡ words_text t)
        → IfOk result (λ html. html.text.items ≡ mark_html class.now sign t) }
{
    let inside = joined(Html::sign(alloc, sign), words);
    classed_around(alloc, Tag::Span, class, inside)
}

// The same, of words as they are.
fn words_mark(alloc: Global, class: &[u8], sign: Sign, words: &[u8]) -> Result<Html, AllocError>
    ensures { IfOk result (λ html. html.text.items ≡ mark_html class.now sign words.now) }
{
    mark(alloc, class, sign, Html::words(alloc, words))
}

/// How one obligation stands.
#[tactic(auto, unfolding(crate::specs::Badges::standing_html))]
pub fn standing_mark(alloc: Global, standing: Standing) -> Result<Html, AllocError>
    ensures { IfOk result (λ html. html.text.items ≡ standing_html standing) }
{
    match standing {
        Standing::Held => words_mark(alloc, b"mark yes", Sign::Check, b" held"),
        Standing::Fails => words_mark(alloc, b"mark no", Sign::Cross, b" fails"),
        Standing::Open => words_mark(alloc, b"mark unknown", Sign::Question, b" open"),
    }
}

/// How the obligations of several scripts stand: the worst of it, and how many of them do.
#[tactic(auto, unfolding(crate::specs::Badges::badge_html))]
pub fn badge(alloc: Global, standings: &[Standing]) -> Result<Html, AllocError>
    ensures { IfOk result (λ html. html.text.items ≡ badge_html standings.now) }
{
    let fails = count(standings, Standing::Fails);
    let open = count(standings, Standing::Open);
    let held = count(standings, Standing::Held);
    worst_badge(alloc, fails, open, held, standings.len())
}

// How many stand so.
fn count(standings: &[Standing], state: Standing) -> usize
    ensures { result ≡ count_by (is_so state) standings.now }
{
    standings.iter().filter(|s| stands_so(state, **s)).count()
}

fn stands_so(state: Standing, standing: Standing) -> bool
    ensures { result ≡ is_so state standing }
{
    matches!(
        (state, standing),
        (Standing::Held, Standing::Held)
            | (Standing::Fails, Standing::Fails)
            | (Standing::Open, Standing::Open)
    )
}

fn worst_badge(
    alloc: Global,
    fails: usize,
    unknown: usize,
    held: usize,
    all: usize,
) -> Result<Html, AllocError>
    ensures { IfOk result (λ html. html.text.items
        ≡ worst_html fails unknown held all) }
{
    if fails > 0 {
        fails_badge(alloc, fails, all)
    } else if unknown > 0 {
        open_badge(alloc, unknown, all)
    } else {
        held_badge(alloc, held, all)
    }
}

fn fails_badge(alloc: Global, count: usize, all: usize) -> Result<Html, AllocError>
    ensures { IfOk result (λ html. html.text.items ≡ fails_html count all) }
{
    let words = counted_words(alloc, count, all, b" fails", b" fail");
    mark(alloc, b"mark no", Sign::Cross, text_of(alloc, words))
}

fn open_badge(alloc: Global, count: usize, all: usize) -> Result<Html, AllocError>
    ensures { IfOk result (λ html. html.text.items ≡ open_html count all) }
{
    let words = counted_words(alloc, count, all, b" open", b" open");
    mark(
        alloc,
        b"mark unknown",
        Sign::Question,
        text_of(alloc, words),
    )
}

fn held_badge(alloc: Global, count: usize, all: usize) -> Result<Html, AllocError>
    ensures { IfOk result (λ html. html.text.items ≡ held_html count all) }
{
    let words = counted_words(alloc, count, all, b" held", b" held");
    mark(alloc, b"mark yes", Sign::Check, text_of(alloc, words))
}

// ` held` of one, ` 64 of 64 held` of more.
fn counted_words(
    alloc: Global,
    count: usize,
    all: usize,
    one: &[u8],
    more: &[u8],
) -> Result<Vec<u8>, AllocError>
    ensures { IfOk result (λ text. text.items ≡ counted_said count all one.now more.now) }
{
    if all == 1 {
        return Vec::from_slice(alloc, one);
    }
    let (mut count_digits, mut all_digits) = (Buffer::new(), Buffer::new());
    let count = count_digits.format(count).as_bytes();
    let all = all_digits.format(all).as_bytes();
    words_of(alloc, &[b" ", count, b" of ", all, more])
}
