//! What is said of a trip: its first ticks, its rule and its margin. The words stand in columns at
//! the right of the axis, where no bar and no marked line comes.

ghost use Rattle.std.specs.Prelude.{◌≡◌, ◌++◌, codes, if◌then◌else◌, IfOk, OnOk, slice_get};
ghost use Rattle.draw_run.specs.layout.Said.{first_ticks_said, margin_said};
ghost use Rattle.draw_run.specs.layout.Trips.{no_rules, told, span, margin_span, times_drawn};
ghost use Rattle.draw_run.specs.layout.Trips.{rule_class, rule_drawn, trip_drawn};
ghost use Rattle.draw_run.specs.layout.Words.{said};
ghost use Rattle.draw_shapes.specs.Seen.{figures_seen};

use crate::diagram::{Diagram, TripTimes};
use crate::layout::scale::{RIGHT, Scale, x_of};
use crate::layout::words::Words;
use draw_shapes::{Class, Figure, put_line, put_text, put_words};
use judge_report::rule_word;
use judge_verdict::verdict::Rule;
use model_line::{Line, Memory};
use std::alloc::Global;

// Where the words of ticks begin, and where the rule does.
const TICKS: u32 = RIGHT + 150;

const RULE: u32 = RIGHT + 1600;

/// Appends what is said of terminal k's trip, whose bars stand on `base`: the first ticks and the
/// rule at the right of the bars, the margin below them, as a line in the axis and in words at its
/// right.
pub fn put_trip(
    alloc: Global,
    figures: &mut Vec<Figure>,
    of: &Line,
    scale: Scale,
    diagram: &Diagram,
    k: u32,
    base: u32,
) -> Result<(), Memory>
    ensures { OnOk result (figures_seen figures.new.items
        ≡ figures_seen figures.old.items ++ trip_drawn of.now scale diagram.now k base) }
{
    put_times(
        alloc,
        figures,
        of,
        scale,
        diagram,
        times_at(diagram.trips.as_slice(), k),
        base,
    )?;
    put_rule(alloc, figures, rule_at(diagram.rules.as_slice(), k), base)
}

fn times_at(trips: &[TripTimes], k: u32) -> Option<TripTimes>
    ensures { result ≡ slice_get trips.now k }
{
    trips.get(k as usize).copied()
}

fn rule_at(rules: &[Rule], k: u32) -> Option<Rule>
    ensures { result ≡ slice_get rules.now k }
{
    rules.get(k as usize).copied()
}

// Appends the margin, and the words of the times.
fn put_times(
    alloc: Global,
    figures: &mut Vec<Figure>,
    of: &Line,
    scale: Scale,
    diagram: &Diagram,
    times: Option<TripTimes>,
    base: u32,
) -> Result<(), Memory>
    ensures { OnOk result (figures_seen figures.new.items
        ≡ figures_seen figures.old.items ++ times_drawn of.now scale diagram.now base times) }
{
    let Some(times) = times else {
        return Ok(());
    };
    put_margin(figures, scale, base, diagram.deadline, times.first_must)?;
    let is_play = has_no_rules(diagram.rules.as_slice());
    let first = first_ticks(alloc, is_play, &times)?;
    put_told(figures, base.saturating_sub(10), first)?;
    let margin = margin(alloc, is_play, of.tick_us, diagram.deadline, times.margin)?;
    put_told(figures, base.saturating_add(140), margin)
}

/// Whether it is a play: those have no rules.
pub fn has_no_rules(rules: &[Rule]) -> bool
    ensures { result ≡ no_rules rules.now }
{
    match rules {
        [] => true,
        [_, ..] => false,
    }
}

// Words at the right of the axis, if there are any.
fn put_told(figures: &mut Vec<Figure>, y: u32, words: Words) -> Result<(), Memory>
    ensures { OnOk result (figures_seen figures.new.items
        ≡ figures_seen figures.old.items ++ told y (said words)) }
{
    if words.bytes.is_empty() {
        return Ok(());
    }
    put_text(figures, Class::Begin, (TICKS, y), words.bytes)?;
    Ok(())
}

// The first ticks, of the may rail and of the must rail; in a play both are one.
fn first_ticks(alloc: Global, is_play: bool, times: &TripTimes) -> Result<Words, Memory>
    ensures { IfOk result (λ words.
        said words ≡ first_ticks_said is_play times.now.first_may times.now.first_must) }
{
    let words = Words::new(alloc);
    match (times.first_may, times.first_must) {
        (Some(may), Some(must)) if may == must => { words.word(both_word(is_play))?.tick(must) }
        (Some(may), Some(must)) => words.word(b"may ")?.tick(may)?.word(b", must ")?.tick(must),
        (Some(may), None) => words.word(b"may ")?.tick(may),
        (None, _) => Ok(words),
    }
}

// What stands before the tick of both rails.
fn both_word(is_play: bool) -> &'static [u8]
    ensures { result.now ≡ (if is_play then codes "trips at " else codes "may and must ") }
{
    if is_play {
        b"trips at "
    } else {
        b"may and must "
    }
}

// The margin in words, where there is a deadline.
fn margin(
    alloc: Global,
    is_play: bool,
    tick_us: u32,
    deadline: Option<u32>,
    margin: Option<i64>,
) -> Result<Words, Memory>
    ensures { IfOk result (λ words. said words ≡ margin_said is_play tick_us deadline margin) }
{
    let words = Words::new(alloc);
    match (deadline, margin) {
        (Some(_), Some(ticks)) => {
            let word: &[u8] = if ticks < 0 { b"late by " } else { b"margin " };
            words.word(word)?.ticks(ticks.unsigned_abs(), tick_us)
        }
        (Some(_), None) if is_play => words.word(b"does not trip"),
        (Some(_), None) => words.word(b"no tick by which it must trip"),
        (None, _) => Ok(words),
    }
}

// The margin below the bar: a line with a stroke at each end, from the end of the first tick of
// the trip to the end of the deadline's.
fn put_margin(
    figures: &mut Vec<Figure>,
    scale: Scale,
    base: u32,
    deadline: Option<u32>,
    first: Option<u32>,
) -> Result<(), Memory>
    ensures { OnOk result (figures_seen figures.new.items
        ≡ figures_seen figures.old.items ++ margin_span scale base deadline first) }
{
    match (deadline, first) {
        (Some(deadline), Some(first)) => {
            let due = x_of(scale, deadline.saturating_add(1));
            let trip = x_of(scale, first.saturating_add(1));
            put_span(figures, base, due.min(trip), due.max(trip))
        }
        (Some(_), None) | (None, _) => Ok(()),
    }
}

fn put_span(figures: &mut Vec<Figure>, base: u32, left: u32, right: u32) -> Result<(), Memory>
    ensures { OnOk result (figures_seen figures.new.items
        ≡ figures_seen figures.old.items ++ span base left right) }
{
    let upper = base.saturating_add(50);
    let y = base.saturating_add(90);
    let lower = base.saturating_add(130);
    put_line(figures, Class::Margin, (left, y), (right, y))?;
    put_line(figures, Class::Margin, (left, upper), (left, lower))?;
    put_line(figures, Class::Margin, (right, upper), (right, lower))?;
    Ok(())
}

// The rule, in a column of its own.
fn put_rule(
    alloc: Global,
    figures: &mut Vec<Figure>,
    rule: Option<Rule>,
    base: u32,
) -> Result<(), Memory>
    ensures { OnOk result (figures_seen figures.new.items
        ≡ figures_seen figures.old.items ++ rule_drawn base rule) }
{
    let Some(rule) = rule else {
        return Ok(());
    };
    let at = (RULE, base.saturating_sub(10));
    let (class, word) = (rule_class(rule), rule_word(rule));
    Ok(put_words(alloc, figures, class, at, word)?)
}

fn rule_class(rule: Rule) -> Class
    ensures { result ≡ rule_class rule }
{
    match rule {
        Rule::Held => Class::Held,
        Rule::Broken => Class::Broken,
        Rule::Unknown => Class::Unknown,
    }
}
