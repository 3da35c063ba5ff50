//! The records of choices.

ghost use Rattle.std.specs.Prelude.{◌≡◌, ◌≤◌, ◌+◌, ◌++◌, IfOk, OnOk};
ghost use Rattle.std.specs.List.{All};
ghost use Rattle.csv.specs.Writing.{row_text, default_writer};
ghost use Rattle.call_choose.specs.Left.{left_of, left_words, lost_words};
ghost use Rattle.call_choose.specs.Named.{IsInterval, IsTellable, width_of};
ghost use Rattle.call_choose.specs.Record.{answer_word as word_of, choice_header, choice_record, choice_rows};
ghost use Rattle.call_choose.specs.Record.{value_at as value_of, value_words};
ghost use Rattle.call_choose.specs.Times.{end_text as end_of, reach_text as reach_of};

use crate::left::{Over, left_text, lost_text};
use crate::named::Named;
use crate::times::{end_text, interval_text, reach_text, value_text};
use base_records::push_record;
use judge_choose::{Answer, Range, answer_at, roomy_value, value};
use model_line::{Line, Memory, Script};
use std::alloc::Global;

/// What records are told by: a line and scripts, the room that is asked for, and whether the trips of
/// the line are one-railed.
#[derive(Clone, Copy)]
pub struct Telling<'a> {
    pub line: &'a Line,
    pub scripts: &'a [Script],
    pub room: Option<u32>,
    pub is_one_railed: bool,
}

/// Appends the header.
pub fn push_header(alloc: Global, text: &mut Vec<u8>) -> Result<(), Memory>
    ensures { OnOk result (text.new.items
        ≡ text.old.items ++ row_text default_writer choice_header) }
{
    push_record(
        alloc,
        text,
        &[
            b"setting",
            b"declared",
            b"answer",
            b"from",
            b"to",
            b"below",
            b"above",
            b"lost_below",
            b"lost_above",
            b"value",
            b"left",
        ],
    )
}

/// Appends the records of ranges, one after another, each under its name.
pub fn push_rows(
    alloc: Global,
    text: &mut Vec<u8>,
    by: &Telling<'_>,
    names: &[Named],
    ranges: &[Range],
) -> Result<(), Memory>
    requires tellable { All IsTellable ranges.now }
    requires intervals { All IsInterval names.now }
    ensures { OnOk result (text.new.items ≡ text.old.items
        ++ choice_rows by.now.line.now by.now.scripts.now by.now.room by.now.is_one_railed names.now
        ranges.now) }
{
    match names {
        [] => Ok(()),
        [named, names @ ..] => match ranges {
            [] => Ok(()),
            [range, ranges @ ..] => {
                push_choice(alloc, text, by, named, range)?;
                push_rows(alloc, text, by, names, ranges)
            }
        },
    }
}

// Appends the record of a range.
#[tactic(auto, unfolding(crate::specs::Record::choice_record))]
fn push_choice(
    alloc: Global,
    text: &mut Vec<u8>,
    by: &Telling<'_>,
    named: &Named,
    range: &Range,
) -> Result<(), Memory>
    requires tellable { IsTellable range.now }
    requires interval { IsInterval named.now }
    ensures { OnOk result (text.new.items ≡ text.old.items
        ++ row_text default_writer (choice_record by.now.line.now by.now.scripts.now by.now.room
        by.now.is_one_railed named.now range.now)) }
{
    let tick_us = by.line.tick_us;
    let declared = interval_text(alloc, tick_us, named.least, named.greatest)?;
    let times = times_of(alloc, tick_us, named, range)?;
    let value = value_in(alloc, by, named, range)?;
    let words = words_of(alloc, by, range)?;
    let answer = Vec::from_slice(alloc, word(answer_at(range, named.least)))?;
    push_record(
        alloc,
        text,
        &[
            named.name.as_slice(),
            declared.as_slice(),
            answer.as_slice(),
            times.from.as_slice(),
            times.to.as_slice(),
            times.below.as_slice(),
            times.above.as_slice(),
            words.below.as_slice(),
            words.above.as_slice(),
            value.as_slice(),
            words.left.as_slice(),
        ],
    )
}

// The ends of a range, and how far they are.
#[derive(Drop)]
struct Times {
    from: Vec<u8>,
    to: Vec<u8>,
    below: Vec<u8>,
    above: Vec<u8>,
}

fn times_of(alloc: Global, tick_us: u32, named: &Named, range: &Range) -> Result<Times, Memory>
    requires tellable { IsTellable range.now }
    requires interval { IsInterval named.now }
    ensures from { IfOk result (λ times. times.from.items
        ≡ end_of range.now.below tick_us range.now.first) }
    ensures to { IfOk result (λ times. times.to.items
        ≡ end_of range.now.above tick_us (range.now.last + width_of named.now)) }
    ensures below { IfOk result (λ times. times.below.items
        ≡ reach_of range.now.below tick_us named.now.least range.now.first) }
    ensures above { IfOk result (λ times. times.above.items
        ≡ reach_of range.now.above tick_us range.now.last named.now.least) }
{
    let to = range.last + (named.greatest - named.least);
    let from = end_text(alloc, range.below, tick_us, range.first)?;
    let to = end_text(alloc, range.above, tick_us, to)?;
    let below = reach_text(alloc, range.below, tick_us, named.least, range.first)?;
    let above = reach_text(alloc, range.above, tick_us, range.last, named.least)?;
    Ok(Times {
        from,
        to,
        below,
        above,
    })
}

// The words of what is lost beyond a range, and of what is left in it.
#[derive(Drop)]
struct Words {
    below: Vec<u8>,
    above: Vec<u8>,
    left: Vec<u8>,
}

fn words_of(alloc: Global, by: &Telling<'_>, range: &Range) -> Result<Words, Memory>
    requires tellable { IsTellable range.now }
    ensures below { IfOk result (λ words. words.below.items
        ≡ lost_words by.now.line.now by.now.scripts.now by.now.is_one_railed range.now.below) }
    ensures above { IfOk result (λ words. words.above.items
        ≡ lost_words by.now.line.now by.now.scripts.now by.now.is_one_railed range.now.above) }
    ensures left { IfOk result (λ words. words.left.items
        ≡ left_words by.now.line.now by.now.scripts.now by.now.is_one_railed
        (left_of range.now.kept.items)) }
{
    let of = Over {
        line: by.line,
        scripts: by.scripts,
        is_one_railed: by.is_one_railed,
    };
    let below = lost_text(alloc, &of, range.below)?;
    let above = lost_text(alloc, &of, range.above)?;
    let left = left_text(alloc, &of, &range.kept)?;
    Ok(Words { below, above, left })
}

// The interval to write.
fn value_in(
    alloc: Global,
    by: &Telling<'_>,
    named: &Named,
    range: &Range,
) -> Result<Vec<u8>, Memory>
    requires tellable { IsTellable range.now }
    requires interval { IsInterval named.now }
    ensures { IfOk result (λ text. text.items ≡ value_words by.now.line.now.tick_us by.now.room
        named.now range.now) }
{
    let at = value_at(by.room, range, named.least);
    value_text(
        alloc,
        by.line.tick_us,
        at,
        at + (named.greatest - named.least),
    )
}

// The position to write.
fn value_at(room: Option<u32>, range: &Range, declared: u32) -> u32
    requires tellable { IsTellable range.now }
    ensures value { result ≡ value_of room range.now declared }
    ensures limit { result ≤ 4000 }
{
    match room {
        Some(room) => roomy_value(range, declared, room.min(4000)),
        None => value(range, declared),
    }
}

fn word(answer: Answer) -> &'static [u8]
    ensures { result.now ≡ word_of answer }
{
    match answer {
        Answer::Inside => b"inside",
        Answer::Outside => b"outside",
        Answer::Any => b"any",
    }
}
