//! The rows of margins.

ghost use Rattle.std.specs.Prelude.{◌≡◌, ◌≤◌, ◌<◌, ◌++◌, OnOk, IfOk, decimal};
ghost use Rattle.model_line.specs.Parameters.{param_count, declared_ends};
ghost use Rattle.judge_margins.specs.margins.MarginsText.{margins_rows, end_row, end_moved, side_word};
ghost use Rattle.judge_margins.specs.margins.MarginsText.{lost_words, end_head, end_numbers, end_times};
ghost use Rattle.judge_margins.specs.{margins.Ends.HaveRoom, margins.Widened.room as room_of};

use crate::margins::end::{End, Side};
use crate::margins::known::laws_below;
use crate::margins::widened::{param_at, side_at};
use base_text::lines::push_ticks;
use itoa::Buffer;
use judge_report::Lost;
use model_line::{Line, Memory, Script, name_of_parameter, name_of_script, name_of_terminal};
use std::alloc::Global;

const HEADER: &[u8] =
    b"parameter,side,declared,reached,slack,lost,declared_ms,reached_ms,slack_ms\n";

/// The margins as records, both ends of each parameter, in order:
/// `parameter,side,declared,reached,slack,lost,declared_ms,reached_ms,slack_ms`, in ticks and then in
/// milliseconds. What is lost one tick further is written `SCRIPT/TERMINAL`; nothing is at the limit.
pub fn margins_text(
    alloc: Global,
    line: &Line,
    scripts: &[Script],
    ends: &[End],
) -> Result<Vec<u8>, Memory>
    requires { HaveRoom line.now ends.now }
    ensures { IfOk result (λ text. text.items ≡ margins_rows line.now scripts.now ends.now) }
{
    laws_below();
    let mut text = Vec::from_slice(alloc, HEADER)?;
    for place in 0..ends.len() {
        let end = &ends[place];
        push_row(
            &mut text,
            line,
            scripts,
            param_at(place),
            side_at(place),
            end,
        )?;
    }
    Ok(text)
}

// Appends the row of an end.
fn push_row(
    text: &mut Vec<u8>,
    line: &Line,
    scripts: &[Script],
    param: u32,
    side: Side,
    end: &End,
) -> Result<(), Memory>
    requires param { param < param_count line.now }
    requires slack { end.now.slack ≤ room_of line.now param side }
    ensures { OnOk result (text.new.items
        ≡ text.old.items ++ end_row line.now scripts.now param side end.now) }
{
    push_head(text, line, param, side)?;
    push_numbers(text, line, param, side, end.slack)?;
    push_lost(text, line, scripts, end.lost)?;
    push_times(text, line, param, side, end.slack)?;
    text.extend_from_slice(b"\n")?;
    Ok(())
}

// Appends the parameter and the side.
fn push_head(text: &mut Vec<u8>, line: &Line, param: u32, side: Side) -> Result<(), Memory>
    ensures { OnOk result (text.new.items ≡ text.old.items ++ end_head line.now param side) }
{
    text.extend_from_slice(name_of_parameter(line, param))?;
    text.extend_from_slice(b",")?;
    text.extend_from_slice(word_of(side))?;
    text.extend_from_slice(b",")?;
    Ok(())
}

// Appends the end as it is declared, as far as it can be moved, and the slack.
fn push_numbers(
    text: &mut Vec<u8>,
    line: &Line,
    param: u32,
    side: Side,
    slack: u32,
) -> Result<(), Memory>
    requires param { param < param_count line.now }
    requires slack { slack ≤ room_of line.now param side }
    ensures { OnOk result (text.new.items
        ≡ text.old.items ++ end_numbers (declared_ends line.now param) side slack) }
{
    push_number(text, moved(line, param, side, 0))?;
    text.extend_from_slice(b",")?;
    push_number(text, moved(line, param, side, slack))?;
    text.extend_from_slice(b",")?;
    push_number(text, slack)?;
    text.extend_from_slice(b",")?;
    Ok(())
}

// Appends the same in milliseconds.
fn push_times(
    text: &mut Vec<u8>,
    line: &Line,
    param: u32,
    side: Side,
    slack: u32,
) -> Result<(), Memory>
    requires param { param < param_count line.now }
    requires slack { slack ≤ room_of line.now param side }
    ensures { OnOk result (text.new.items ≡ text.old.items
        ++ end_times line.now.tick_us (declared_ends line.now param) side slack) }
{
    text.extend_from_slice(b",")?;
    push_ticks(text, line.tick_us, moved(line, param, side, 0))?;
    text.extend_from_slice(b",")?;
    push_ticks(text, line.tick_us, moved(line, param, side, slack))?;
    text.extend_from_slice(b",")?;
    push_ticks(text, line.tick_us, slack)?;
    Ok(())
}

fn word_of(side: Side) -> &'static [u8]
    ensures { result.now ≡ side_word side }
{
    match side {
        Side::Above => b"above",
        Side::Below => b"below",
    }
}

// The end moved outward by so many ticks.
fn moved(line: &Line, param: u32, side: Side, by: u32) -> u32
    requires param { param < param_count line.now }
    requires by { by ≤ room_of line.now param side }
    ensures { result ≡ end_moved (declared_ends line.now param) side by }
{
    laws_below();
    match side {
        Side::Above => line.greatest(param) + by,
        Side::Below => line.least(param) - by,
    }
}

fn push_number(text: &mut Vec<u8>, number: u32) -> Result<(), Memory>
    ensures { OnOk result (text.new.items ≡ text.old.items ++ decimal number) }
{
    let mut digits = Buffer::new();
    text.extend_from_slice(digits.format(number).as_bytes())?;
    Ok(())
}

// Appends what is lost, or nothing.
fn push_lost(
    text: &mut Vec<u8>,
    line: &Line,
    scripts: &[Script],
    lost: Option<Lost>,
) -> Result<(), Memory>
    ensures { OnOk result (text.new.items ≡ text.old.items ++ lost_words line.now scripts.now lost) }
{
    let Some(lost) = lost else {
        return Ok(());
    };
    text.extend_from_slice(name_of_script(scripts, lost.script))?;
    text.extend_from_slice(b"/")?;
    text.extend_from_slice(name_of_terminal(line, lost.terminal))?;
    Ok(())
}
