//! The look of a drawing.

ghost use Rattle.std.specs.Prelude.{◌≡◌, ◌++◌, IfOk, OnOk};
ghost use Rattle.std.specs.List.{flat_map};
ghost use Rattle.draw_shapes.specs.Svg.{rule_text, rules_text};
ghost use Rattle.draw_shapes.specs.Svg.{hatching_text, hatchings_text, sheet_text, stripes_text};
ghost use Rattle.draw_shapes.specs.Svg.{key_hatching, trip_hatching, logic_hatching};
ghost use Rattle.draw_shapes.specs.{Svg.figure_text, Seen.rectangle};

use crate::class::{CLASSES, Class};
use crate::document::{ended, rectangle};
use crate::figure::Rectangle;
use base_markup::svg::{Key, Markup, Tag, words};
use std::alloc::{AllocError, Global};

/// The style sheet.
#[tactic(auto, unfolding(crate::specs::Svg::sheet_text))]
pub fn sheet(alloc: Global) -> Result<Markup, AllocError>
    ensures { IfOk result (λ markup. markup.text.items ≡ sheet_text) }
{
    let rules = rules(alloc)?;
    let text = Markup::words(alloc, rules.as_slice())?;
    ended(alloc, Markup::element(alloc, Tag::Style, &[], &text)?)
}

// The rules of the style sheet, one for each look.
fn rules(alloc: Global) -> Result<Vec<u8>, AllocError>
    ensures { IfOk result (λ text. text.items ≡ rules_text) }
{
    let mut text = Vec::from_slice(alloc, b"\ntext { font: 12px sans-serif; fill: #1b2733 }\n")?;
    put_rules(&mut text, &CLASSES)?;
    Ok(text)
}

fn put_rules(text: &mut Vec<u8>, classes: &[Class]) -> Result<(), AllocError>
    ensures { OnOk result (text.new.items ≡ text.old.items ++ flat_map rule_text classes.now) }
{
    for class in classes {
        put_rule(text, *class)?;
    }
    Ok(())
}

/// Appends the rule of a look.
#[tactic(auto, unfolding(crate::specs::Svg::rule_text))]
pub fn put_rule(text: &mut Vec<u8>, class: Class) -> Result<(), AllocError>
    ensures { OnOk result (text.new.items ≡ text.old.items ++ rule_text class) }
{
    text.extend_from_slice(b".")?;
    text.extend_from_slice(class.name())?;
    text.extend_from_slice(b" { ")?;
    text.extend_from_slice(class.look())?;
    text.extend_from_slice(b" }\n")
}

/// The three hatchings that the looks name.
#[tactic(auto, unfolding(crate::specs::Svg::hatchings_text))]
pub fn hatchings(alloc: Global) -> Result<Markup, AllocError>
    ensures { IfOk result (λ markup. markup.text.items ≡ hatchings_text) }
{
    let all = key_hatching(alloc)?
        .and(&trip_hatching(alloc)?)?
        .and(&logic_hatching(alloc)?)?;
    ended(alloc, Markup::element(alloc, Tag::Defs, &[], &all)?)
}

#[tactic(auto, unfolding(crate::specs::Svg::key_hatching))]
fn key_hatching(alloc: Global) -> Result<Markup, AllocError>
    ensures { IfOk result (λ markup. markup.text.items ≡ key_hatching) }
{
    hatching(
        alloc,
        b"key-open",
        b"rotate(45)",
        Class::KeyPale,
        Class::KeyHatch,
    )
}

#[tactic(auto, unfolding(crate::specs::Svg::trip_hatching))]
fn trip_hatching(alloc: Global) -> Result<Markup, AllocError>
    ensures { IfOk result (λ markup. markup.text.items ≡ trip_hatching) }
{
    hatching(
        alloc,
        b"trip-open",
        b"rotate(135)",
        Class::TripPale,
        Class::TripHatch,
    )
}

#[tactic(auto, unfolding(crate::specs::Svg::logic_hatching))]
fn logic_hatching(alloc: Global) -> Result<Markup, AllocError>
    ensures { IfOk result (λ markup. markup.text.items ≡ logic_hatching) }
{
    hatching(
        alloc,
        b"logic-open",
        b"rotate(90)",
        Class::LogicPale,
        Class::LogicHatch,
    )
}

// A hatching: stripes over a pale ground.
#[tactic(auto, unfolding(crate::specs::Svg::hatching_text))]
fn hatching(
    alloc: Global,
    name: &[u8],
    turn: &[u8],
    pale: Class,
    stripe: Class,
) -> Result<Markup, AllocError>
    ensures { IfOk result (λ markup.
        markup.text.items ≡ hatching_text name.now turn.now pale stripe) }
{
    let inside = stripes(alloc, pale, stripe)?;
    let pattern = Markup::element(
        alloc,
        Tag::Pattern,
        &[
            words(Key::Id, name),
            words(Key::Width, b"6"),
            words(Key::Height, b"6"),
            words(Key::PatternUnits, b"userSpaceOnUse"),
            words(Key::PatternTransform, turn),
        ],
        &inside,
    )?;
    ended(alloc, pattern)
}

// Stripes over a pale ground.
fn stripes(alloc: Global, pale: Class, stripe: Class) -> Result<Markup, AllocError>
    ensures { IfOk result (λ markup. markup.text.items ≡ stripes_text pale stripe) }
{
    square(alloc, pale, 60)?.and(&square(alloc, stripe, 30)?)
}

// A rectangle from the corner, 6 pixels high.
fn square(alloc: Global, class: Class, width: u32) -> Result<Markup, AllocError>
    ensures { IfOk result (λ markup. markup.text.items
        ≡ figure_text (rectangle class 0 0 width 60)) }
{
    rectangle(
        alloc,
        Rectangle {
            class,
            x: 0,
            y: 0,
            width,
            height: 60,
        },
    )
}
