//! All scripts of a swept fault as a strip for each terminal.

ghost use Rattle.std.specs.Prelude.{◌≡◌, IfOk};
ghost use Rattle.std.specs.List.{flat_map};
ghost use Rattle.draw_page.specs.Elements.{numbered};
ghost use Rattle.draw_page.specs.Sweeps.{name_at as name_of_case, spot_class as class_of_spot};
ghost use Rattle.draw_page.specs.Sweeps.{spot_html, spot_sign as sign_of_spot, strip_html, strips_html};

use crate::elements::words_in;
use crate::page::{Case, Standing, Verdict};
use crate::parts::{element, hidden, joined};
use base_markup::html::{Attribute, Html, Key, Sign, Tag};
use std::alloc::{AllocError, Global};

/// A strip for each terminal, with a spot for each script.
pub fn strips(alloc: Global, cases: &[Case], verdicts: &[Verdict]) -> Result<Html, AllocError>
    ensures { IfOk result (λ html. html.text.items ≡ strips_html cases.now verdicts.now) }
{
    let mut made = Ok(Html::new(alloc));
    for verdict in verdicts {
        made = joined(made, strip(alloc, cases, verdict));
    }
    made
}

fn strip(alloc: Global, cases: &[Case], verdict: &Verdict) -> Result<Html, AllocError>
    ensures { IfOk result (λ html. html.text.items ≡ strip_html cases.now verdict.now) }
{
    let name = words_in(alloc, Tag::Strong, verdict.terminal.as_slice());
    let spots = spots(alloc, cases, verdict.standings.as_slice());
    hidden(alloc, b"strip", joined(name, spots))
}

fn spots(alloc: Global, cases: &[Case], standings: &[Standing]) -> Result<Html, AllocError>
    ensures { IfOk result (λ html. html.text.items
        ≡ numbered (spot_html cases.now) 0 standings.now) }
{
    let mut made = Html::new(alloc);
    for place in 0..standings.len() {
        made = made.and(&spot(alloc, cases, place, standings[place])?)?;
    }
    Ok(made)
}

// A spot, which says its script to a pointer.
fn spot(alloc: Global, cases: &[Case], place: usize, standing: Standing) -> Result<Html, AllocError>
    ensures { IfOk result (λ html. html.text.items ≡ spot_html cases.now place standing) }
{
    let class = Attribute {
        key: Key::Class,
        words: spot_class(standing),
    };
    let title = Attribute {
        key: Key::Title,
        words: name_at(cases, place),
    };
    let sign = Html::sign(alloc, spot_sign(standing));
    element(alloc, Tag::Span, &[class, title], sign)
}

fn spot_class(standing: Standing) -> &'static [u8]
    ensures { result.now ≡ class_of_spot standing }
{
    match standing {
        Standing::Held => b"spot held",
        Standing::Fails => b"spot fails",
        Standing::Open => b"spot open",
    }
}

fn spot_sign(standing: Standing) -> Sign
    ensures { result ≡ sign_of_spot standing }
{
    match standing {
        Standing::Held => Sign::Check,
        Standing::Fails => Sign::Cross,
        Standing::Open => Sign::Question,
    }
}

fn name_at<'a>(cases: &'a [Case], place: usize) -> &'a [u8]
    ensures { result.now ≡ name_of_case cases.now place }
{
    match cases.get(place) {
        Some(case) => case.name.as_slice(),
        None => b"",
    }
}
