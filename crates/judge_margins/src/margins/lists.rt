//! Lists with one element for each end.

ghost use Rattle.std.specs.Prelude.{◌≡◌, ◌≤◌, ◌<◌, ◌+◌, ℕ, Option, Some, IfOk, OnOk, length};
ghost use Rattle.std.specs.Prelude.{slice_get};
ghost use Rattle.judge_report.specs.declared.upper_end.Lost.{Lost as LostOf};
ghost use Rattle.judge_margins.specs.margins.Brackets.{AreAsksOf, AreHalves, AreOpen, AreSettled, AreSlots};
ghost use Rattle.judge_margins.specs.margins.Brackets.{IsHalf, IsSlot, fresh_bracket, settled};
ghost use Rattle.judge_margins.specs.declared.margins.bracket.Bracket.{Bracket as BracketOf};
ghost use Rattle.judge_margins.specs.declared.margins.end.End.{End as EndOf};

use crate::margins::ask::Ask;
use crate::margins::bracket::Bracket;
use crate::margins::end::End;
use judge_report::Lost;
use model_line::Memory;
use std::alloc::Global;

/// Brackets of which nothing is asked yet.
pub fn opened(alloc: Global, ends: &[End]) -> Result<Vec<Bracket>, Memory>
    ensures { IfOk result (λ brackets. AreOpen ends.now brackets.items) }
{
    let mut brackets = Vec::new(alloc);
    for place in 0..ends.len() {
        brackets.push(opened_at(ends, place))?;
    }
    Ok(brackets)
}

fn opened_at(ends: &[End], place: usize) -> Bracket
    requires { place < length ends.now }
    ensures { (end : EndOf) → slice_get ends.now place ≡ Some end →
        result ≡ fresh_bracket end.slack }
{
    Bracket::fresh(ends[place].slack)
}

/// No bracket is wider.
pub fn widest(brackets: &[Bracket]) -> u32
    ensures { (place : ℕ) (b : BracketOf) → slice_get brackets.now place ≡ Some b →
        b.far ≤ b.near + result }
{
    let mut width = 0;
    for place in 0..brackets.len() {
        width = larger(width, width_at(brackets, place));
    }
    width
}

fn larger(a: u32, b: u32) -> u32
    ensures first { a ≤ result }
    ensures second { b ≤ result }
{
    if a < b { b } else { a }
}

fn width_at(brackets: &[Bracket], place: usize) -> u32
    requires { place < length brackets.now }
    ensures { (b : BracketOf) → slice_get brackets.now place ≡ Some b → b.far ≤ b.near + result }
{
    brackets[place].far.saturating_sub(brackets[place].near)
}

/// What is asked of the brackets that are open, and where it stands among the asks.
#[derive(Drop)]
pub struct Slots {
    pub asks: Vec<Ask>,
    pub slots: Vec<Option<usize>>,
}

/// What is asked of the brackets that are open: whether all is held at the whole slack, or at the
/// middle.
pub fn asked(alloc: Global, brackets: &[Bracket], whole: bool) -> Result<Slots, Memory>
    requires ordered { (place : ℕ) (b : BracketOf) → slice_get brackets.now place ≡ Some b →
        b.near ≤ b.far }
    requires small { (place : ℕ) (b : BracketOf) → slice_get brackets.now place ≡ Some b →
        b.far ≤ 4000 }
    ensures slots { IfOk result (λ asked. AreSlots whole brackets.now asked.slots.items
        asked.asks.items (length brackets.now)) }
    ensures asks { IfOk result (λ asked. AreAsksOf whole brackets.now asked.asks.items) }
{
    let mut asks = Vec::new(alloc);
    let mut slots = Vec::new(alloc);
    for place in 0..brackets.len() {
        ask_more(brackets, place, whole, &mut asks, &mut slots)?;
    }
    Ok(Slots { asks, slots })
}

// The slot of one bracket more.
fn ask_more(
    brackets: &[Bracket],
    place: usize,
    whole: bool,
    asks: &mut Vec<Ask>,
    slots: &mut Vec<Option<usize>>,
) -> Result<(), Memory>
    requires place { place < length brackets.now }
    requires ordered { (i : ℕ) (b : BracketOf) → slice_get brackets.now i ≡ Some b →
        b.near ≤ b.far }
    requires small { (i : ℕ) (b : BracketOf) → slice_get brackets.now i ≡ Some b → b.far ≤ 4000 }
    requires slots { AreSlots whole brackets.now slots.old.items asks.old.items place }
    requires asks { AreAsksOf whole brackets.now asks.old.items }
    ensures slots { OnOk result
        (AreSlots whole brackets.now slots.new.items asks.new.items (place + 1)) }
    ensures asks { OnOk result (AreAsksOf whole brackets.now asks.new.items) }
{
    let bracket = bracket_at(brackets, place);
    if bracket.near >= bracket.far {
        slots.push(None)?;
        return Ok(());
    }
    slots.push(Some(asks.len()))?;
    asks.push(Ask {
        place,
        by: bracket.tried(whole),
    })?;
    Ok(())
}

fn bracket_at(brackets: &[Bracket], place: usize) -> Bracket
    requires { place < length brackets.now }
    ensures { slice_get brackets.now place ≡ Some result }
{
    brackets[place]
}

/// What is left of each bracket by what is told of the asks.
pub fn halves(
    alloc: Global,
    brackets: &[Bracket],
    slots: &[Option<usize>],
    told: &[Option<Lost>],
    whole: bool,
) -> Result<Vec<Bracket>, Memory>
    requires count { length slots.now ≡ length brackets.now }
    requires told { (place j : ℕ) → slice_get slots.now place ≡ Some (Some j) →
        j < length told.now }
    requires ordered { (place : ℕ) (b : BracketOf) → slice_get brackets.now place ≡ Some b →
        b.near ≤ b.far }
    requires small { (place : ℕ) (b : BracketOf) → slice_get brackets.now place ≡ Some b →
        b.far ≤ 4000 }
    ensures { IfOk result (λ halves.
        AreHalves whole slots.now told.now brackets.now halves.items) }
{
    let mut halves = Vec::new(alloc);
    for place in 0..brackets.len() {
        halves.push(half_at(brackets, slots, told, whole, place))?;
    }
    Ok(halves)
}

fn half_at(
    brackets: &[Bracket],
    slots: &[Option<usize>],
    told: &[Option<Lost>],
    whole: bool,
    place: usize,
) -> Bracket
    requires place { place < length brackets.now }
    requires count { length slots.now ≡ length brackets.now }
    requires told { (j : ℕ) → slice_get slots.now place ≡ Some (Some j) → j < length told.now }
    requires ordered { (i : ℕ) (b : BracketOf) → slice_get brackets.now i ≡ Some b →
        b.near ≤ b.far }
    requires small { (i : ℕ) (b : BracketOf) → slice_get brackets.now i ≡ Some b → b.far ≤ 4000 }
    ensures { (b : BracketOf) (slot : Option ℕ) → slice_get brackets.now place ≡ Some b →
        slice_get slots.now place ≡ Some slot → IsHalf whole told.now b slot result }
{
    let bracket = bracket_at(brackets, place);
    match slots[place] {
        None => bracket,
        Some(j) => bracket.half(bracket.tried(whole), told[j]),
    }
}

/// The ends where these obligations are held too.
pub fn settle(alloc: Global, ends: &[End], brackets: &[Bracket]) -> Result<Vec<End>, Memory>
    requires { length brackets.now ≡ length ends.now }
    ensures { IfOk result (λ settled. AreSettled brackets.now ends.now settled.items) }
{
    let mut settled = Vec::new(alloc);
    for place in 0..ends.len() {
        settled.push(settled_at(ends, brackets, place))?;
    }
    Ok(settled)
}

fn settled_at(ends: &[End], brackets: &[Bracket], place: usize) -> End
    requires place { place < length ends.now }
    requires count { length brackets.now ≡ length ends.now }
    ensures { (end : EndOf) (b : BracketOf) → slice_get ends.now place ≡ Some end →
        slice_get brackets.now place ≡ Some b → result ≡ settled b end }
{
    let bracket = brackets[place];
    if bracket.near < ends[place].slack {
        End {
            slack: bracket.near,
            lost: bracket.lost,
        }
    } else {
        ends[place]
    }
}
