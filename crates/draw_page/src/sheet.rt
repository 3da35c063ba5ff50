//! The style sheet of the page.

ghost use Rattle.std.specs.Prelude.{◌≡◌, ◌++◌, IfOk, OnOk};
ghost use Rattle.std.specs.List.{flat_map};
ghost use Rattle.draw_page.specs.Figures.{look_rule};
ghost use Rattle.draw_page.specs.Sheets.{sheet_html, sheet_words};

use crate::page::Page;
use crate::running::running;
use crate::style::{Part, rules_of};
use crate::words::words_of;
use base_markup::html::Html;
use draw_shapes::{CLASSES, Class, put_rule};
use std::alloc::{AllocError, Global};

/// The style sheet, with a rule for each look of a drawing, and the margins of this page's sheets.
#[tactic(auto, unfolding(crate::specs::Sheets::sheet_html))]
pub fn sheet(alloc: Global, page: &Page) -> Result<Html, AllocError>
    ensures { IfOk result (λ html. html.text.items ≡ sheet_html page.now) }
{
    let mut words = words(alloc)?;
    let running = running(alloc, page)?;
    words.extend_from_slice(running.as_slice())?;
    Html::sheet(alloc, words.as_slice())
}

#[tactic(auto, unfolding(crate::specs::Sheets::sheet_words))]
fn words(alloc: Global) -> Result<Vec<u8>, AllocError>
    ensures { IfOk result (λ text. text.items ≡ sheet_words) }
{
    let looks = looks(alloc, &CLASSES)?;
    words_of(
        alloc,
        &[
            rules_of(Part::Text),
            rules_of(Part::Tables),
            rules_of(Part::Marks),
            rules_of(Part::Drawings),
            looks.as_slice(),
            rules_of(Part::Narrow),
            rules_of(Part::Print),
        ],
    )
}

// A rule for each look.
fn looks(alloc: Global, classes: &[Class]) -> Result<Vec<u8>, AllocError>
    ensures { IfOk result (λ text. text.items ≡ flat_map look_rule classes.now) }
{
    let mut text = Vec::new(alloc);
    for class in classes {
        put_look(&mut text, *class)?;
    }
    Ok(text)
}

// The rule of a look, for drawings alone.
#[tactic(auto, unfolding(crate::specs::Figures::look_rule))]
fn put_look(text: &mut Vec<u8>, class: Class) -> Result<(), AllocError>
    ensures { OnOk result (text.new.items ≡ text.old.items ++ look_rule class) }
{
    text.extend_from_slice(b"svg ")?;
    put_rule(text, class)
}
