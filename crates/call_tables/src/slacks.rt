//! The records of slacks.

ghost use Rattle.std.specs.Prelude.{◌≡◌, ◌≤◌, ◌<◌, ◌++◌, OnOk, IfOk, Some, decimal, length, slice_get};
ghost use Rattle.base_text.specs.lines.Milliseconds.{ticks_text};
ghost use Rattle.csv.specs.Writing.{row_text, default_writer};
ghost use Rattle.model_line.specs.Parameters.{param_count, declared_ends};
ghost use Rattle.judge_margins.specs.margins.Ends.{HaveRoom};
ghost use Rattle.judge_margins.specs.margins.MarginsText.{end_moved, lost_words, side_word};
ghost use Rattle.judge_margins.specs.margins.Widened.{room as room_of};
ghost use Rattle.judge_slacks.specs.declared.lack.Short.{Short as ShortOf};
ghost use Rattle.judge_slacks.specs.Inward.{CanMoveIn};
ghost use Rattle.judge_slacks.specs.Lacks.{AreDeep};
ghost use Rattle.call_tables.specs.Slacks.{amount as amount_of, beyond, bound, count_mark, end_in};
ghost use Rattle.call_tables.specs.Slacks.{few_words, joined, reached as reached_by, sign as sign_of};
ghost use Rattle.call_tables.specs.Slacks.{slack_record, slack_row, slacks_header};
ghost use Rattle.call_tables.specs.Slacks.{slacks_text as text_of_slacks};

use base_records::push_record;
use base_text::lines::push_ticks;
use itoa::Buffer;
use judge_margins::margins::{End, Side};
use judge_report::Lost;
use judge_slacks::{Lack, Short, end_at, ends_moved};
use model_line::laws::{declared_intervals_are_in_order, parameters_are_numbered};
use model_line::{Line, Memory, Script, name_of_parameter, name_of_script, name_of_terminal};
use std::alloc::Global;

/// The records of both ends of each parameter, in order:
/// `parameter,side,declared,reached,slack,bound,declared_ms,reached_ms,slack_ms,left`, in ticks and
/// then in milliseconds.
pub fn slacks_text(
    alloc: Global,
    line: &Line,
    scripts: &[Script],
    ends: &[End],
    lacks: &[Lack],
) -> Result<Vec<u8>, Memory>
    requires room { HaveRoom line.now ends.now }
    requires deep { AreDeep line.now lacks.now }
    requires count { length lacks.now ≡ length ends.now }
    ensures { IfOk result (λ text. text.items
        ≡ text_of_slacks line.now scripts.now ends.now lacks.now) }
{
    let mut text = Vec::new(alloc);
    push_header(alloc, &mut text)?;
    for place in 0..ends.len() {
        push_row(alloc, &mut text, line, scripts, ends, lacks, place)?;
    }
    Ok(text)
}

fn push_header(alloc: Global, text: &mut Vec<u8>) -> Result<(), Memory>
    ensures { OnOk result (text.new.items ≡ text.old.items ++ row_text default_writer slacks_header) }
{
    push_record(
        alloc,
        text,
        &[
            b"parameter",
            b"side",
            b"declared",
            b"reached",
            b"slack",
            b"bound",
            b"declared_ms",
            b"reached_ms",
            b"slack_ms",
            b"left",
        ],
    )
}

// Appends the record of the end at a place.
fn push_row(
    alloc: Global,
    text: &mut Vec<u8>,
    line: &Line,
    scripts: &[Script],
    ends: &[End],
    lacks: &[Lack],
    place: usize,
) -> Result<(), Memory>
    requires room { HaveRoom line.now ends.now }
    requires deep { AreDeep line.now lacks.now }
    requires count { length lacks.now ≡ length ends.now }
    requires place { place < length ends.now }
    ensures { OnOk result (text.new.items ≡ text.old.items ++ slack_row line.now scripts.now place
        (slice_get ends.now place) (slice_get lacks.now place)) }
{
    parameters_are_numbered();
    let (param, side) = end_at(place);
    let end = end_of(ends, place);
    let lack = lack_of(lacks, place);
    let reached = reached(line, param, side, end, lack.short);
    push_fields(alloc, text, line, scripts, param, side, end, lack, reached)
}

fn end_of(ends: &[End], place: usize) -> End
    requires { place < length ends.now }
    ensures { slice_get ends.now place ≡ Some result }
{
    ends[place]
}

fn lack_of(lacks: &[Lack], place: usize) -> &Lack
    requires { place < length lacks.now }
    ensures { slice_get lacks.now place ≡ Some result.now }
{
    &lacks[place]
}

// Appends the record of an end that reaches so far.
#[tactic(auto, unfolding(crate::specs::Slacks::slack_record))]
fn push_fields(
    alloc: Global,
    text: &mut Vec<u8>,
    line: &Line,
    scripts: &[Script],
    param: u32,
    side: Side,
    end: End,
    lack: &Lack,
    reached: u32,
) -> Result<(), Memory>
    requires param { param < param_count line.now }
    requires reached { reached ≡ reached_by (declared_ends line.now param) side end lack.now.short }
    ensures { OnOk result (text.new.items ≡ text.old.items ++ row_text default_writer
        (slack_record line.now scripts.now param side end lack.now.short lack.now.left.items)) }
{
    let sign = sign(lack.short);
    let amount = amount(end, lack.short);
    let declared = declared_end(line, param, side);
    let side_text = Vec::from_slice(alloc, word_of(side))?;
    let first = number_text(alloc, b"", declared)?;
    let second = number_text(alloc, b"", reached)?;
    let slack = number_text(alloc, sign, amount)?;
    let bound = bound_text(alloc, line, scripts, end, lack.short)?;
    let declared_ms = time_text(alloc, b"", line.tick_us, declared)?;
    let reached_ms = time_text(alloc, b"", line.tick_us, reached)?;
    let slack_ms = time_text(alloc, sign, line.tick_us, amount)?;
    let left = few_text(alloc, line, scripts, &lack.left)?;
    push_record(
        alloc,
        text,
        &[
            name_of_parameter(line, param),
            side_text.as_slice(),
            first.as_slice(),
            second.as_slice(),
            slack.as_slice(),
            bound.as_slice(),
            declared_ms.as_slice(),
            reached_ms.as_slice(),
            slack_ms.as_slice(),
            left.as_slice(),
        ],
    )
}

// ---- numbers

// The end as it is declared.
fn declared_end(line: &Line, param: u32, side: Side) -> u32
    requires { param < param_count line.now }
    ensures { result ≡ end_moved (declared_ends line.now param) side 0 }
{
    match side {
        Side::Above => line.greatest(param),
        Side::Below => line.least(param),
    }
}

// The end moved outward by what it has to spare, or inward by what it lacks.
fn reached(line: &Line, param: u32, side: Side, end: End, short: Option<Short>) -> u32
    requires param { param < param_count line.now }
    requires room { end.slack ≤ room_of line.now param side }
    requires deep { (s : ShortOf) → short ≡ Some s → CanMoveIn line.now param side s.by }
    ensures { result ≡ reached_by (declared_ends line.now param) side end short }
{
    match short {
        None => moved_out(line, param, side, end.slack),
        Some(short) => moved_in(line, param, side, short.by),
    }
}

fn moved_out(line: &Line, param: u32, side: Side, by: u32) -> u32
    requires param { param < param_count line.now }
    requires room { by ≤ room_of line.now param side }
    ensures { result ≡ end_moved (declared_ends line.now param) side by }
{
    declared_intervals_are_in_order();
    match side {
        Side::Above => line.greatest(param) + by,
        Side::Below => line.least(param) - by,
    }
}

fn moved_in(line: &Line, param: u32, side: Side, by: u32) -> u32
    requires param { param < param_count line.now }
    requires can { CanMoveIn line.now param side by }
    ensures { result ≡ end_in (declared_ends line.now param) side by }
{
    let (least, greatest) = ends_moved(line, param, side, by);
    match side {
        Side::Above => greatest,
        Side::Below => least,
    }
}

fn amount(end: End, short: Option<Short>) -> u32
    ensures { result ≡ amount_of end short }
{
    match short {
        None => end.slack,
        Some(short) => short.by,
    }
}

fn sign(short: Option<Short>) -> &'static [u8]
    ensures { result.now ≡ sign_of short }
{
    match short {
        None => b"",
        Some(_) => b"-",
    }
}

fn word_of(side: Side) -> &'static [u8]
    ensures { result.now ≡ side_word side }
{
    match side {
        Side::Above => b"above",
        Side::Below => b"below",
    }
}

// A number behind a sign.
fn number_text(alloc: Global, sign: &[u8], number: u32) -> Result<Vec<u8>, Memory>
    ensures { IfOk result (λ text. text.items ≡ sign.now ++ decimal number) }
{
    let mut digits = Buffer::new();
    let mut text = Vec::from_slice(alloc, sign)?;
    text.extend_from_slice(digits.format(number).as_bytes())?;
    Ok(text)
}

// A time behind a sign.
fn time_text(alloc: Global, sign: &[u8], tick_us: u32, t: u32) -> Result<Vec<u8>, Memory>
    ensures { IfOk result (λ text. text.items ≡ sign.now ++ ticks_text tick_us t) }
{
    let mut text = Vec::from_slice(alloc, sign)?;
    push_ticks(&mut text, tick_us, t)?;
    Ok(text)
}

// ---- obligations

// What bounds an end.
fn bound_text(
    alloc: Global,
    line: &Line,
    scripts: &[Script],
    end: End,
    short: Option<Short>,
) -> Result<Vec<u8>, Memory>
    ensures { IfOk result (λ text. text.items ≡ bound line.now scripts.now end short) }
{
    match short {
        None => beyond_text(alloc, line, scripts, end.slack, end.lost),
        Some(short) => lost_text(alloc, line, scripts, short.of),
    }
}

// What is lost one tick further.
fn beyond_text(
    alloc: Global,
    line: &Line,
    scripts: &[Script],
    slack: u32,
    lost: Option<Lost>,
) -> Result<Vec<u8>, Memory>
    ensures { IfOk result (λ text. text.items ≡ beyond line.now scripts.now slack lost) }
{
    match lost {
        Some(lost) => lost_text(alloc, line, scripts, lost),
        None => {
            let word: &[u8] = if slack == 0 { b"limit" } else { b"not tested" };
            Ok(Vec::from_slice(alloc, word)?)
        }
    }
}

fn lost_text(alloc: Global, line: &Line, scripts: &[Script], lost: Lost) -> Result<Vec<u8>, Memory>
    ensures { IfOk result (λ text. text.items ≡ lost_words line.now scripts.now (Some lost)) }
{
    let mut text = Vec::new(alloc);
    push_lost(&mut text, line, scripts, lost)?;
    Ok(text)
}

// Appends `SCRIPT/TERMINAL`.
fn push_lost(text: &mut Vec<u8>, line: &Line, scripts: &[Script], lost: Lost) -> Result<(), Memory>
    ensures { OnOk result (text.new.items
        ≡ text.old.items ++ lost_words line.now scripts.now (Some lost)) }
{
    text.extend_from_slice(name_of_script(scripts, lost.script))?;
    text.extend_from_slice(b"/")?;
    text.extend_from_slice(name_of_terminal(line, lost.terminal))?;
    Ok(())
}

// The first three obligations, and how many there are where there are more.
fn few_text(
    alloc: Global,
    line: &Line,
    scripts: &[Script],
    left: &[Lost],
) -> Result<Vec<u8>, Memory>
    ensures { IfOk result (λ text. text.items ≡ few_words line.now scripts.now left.now) }
{
    let few = &left[..left.len().min(3)];
    let mut text = Vec::new(alloc);
    push_joined(&mut text, line, scripts, b"", few)?;
    push_count(&mut text, left.len())?;
    Ok(text)
}

// Appends obligations, the first behind this.
fn push_joined(
    text: &mut Vec<u8>,
    line: &Line,
    scripts: &[Script],
    before: &[u8],
    left: &[Lost],
) -> Result<(), Memory>
    ensures { OnOk result (text.new.items
        ≡ text.old.items ++ joined line.now scripts.now before.now left.now) }
{
    match left {
        [] => Ok(()),
        [lost, more @ ..] => {
            text.extend_from_slice(before)?;
            push_lost(text, line, scripts, *lost)?;
            push_joined(text, line, scripts, b";", more)
        }
    }
}

// Appends how many there are, if there are more than three.
fn push_count(text: &mut Vec<u8>, count: usize) -> Result<(), Memory>
    ensures { OnOk result (text.new.items ≡ text.old.items ++ count_mark count) }
{
    if count > 3 {
        let mut digits = Buffer::new();
        text.extend_from_slice(b";..")?;
        text.extend_from_slice(digits.format(count).as_bytes())?;
    }
    Ok(())
}
