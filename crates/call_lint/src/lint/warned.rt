//! The text of warnings.

use crate::lint::sheet::{Sheet, fault_of, swept_fault, swept_time};
use crate::lint::subject::{name_of, spot_of, subject_of};
use crate::lint::words::{study_words, warning_words};
use crate::warnings::{SweptTime, Warning};
use base_text::lines::push_ticks;
use base_text::pieces::push_pieces;
use call_refused::told::push_place;
use itoa::Buffer;
use model_line::{Line, Memory, Script};
use std::alloc::Global;

/// The text of the warnings, a line for each: `FILE:LINE:COLUMN: warning: SUBJECT: WORDS`. What is
/// said of scripts of one fault one after another is said once, of the first of them, and that times
/// were rounded is said once of all, with the most microseconds by which one was moved.
pub fn warnings_text(
    alloc: Global,
    sheet: Sheet<'_>,
    line: &Line,
    scripts: &[Script],
    moved: u128,
    warnings: &[Warning],
) -> Result<Vec<u8>, Memory> {
    let mut text = Vec::new(alloc);
    for warning in warnings {
        if !is_said(sheet, warnings, *warning) {
            push_subject(alloc, &mut text, sheet, &*line, &*scripts, *warning)?;
            push_words(&mut text, sheet, line.tick_us, moved, *warning)?;
        }
    }
    Ok(text)
}

fn push_subject<'a>(
    alloc: Global,
    text: &mut Vec<u8>,
    sheet: Sheet<'a>,
    line: &'a Line,
    scripts: &'a [Script],
    warning: Warning,
) -> Result<(), Memory> {
    let subject = subject_of(sheet, line, warning);
    let spot = spot_of(alloc, sheet, line, scripts, subject)?;
    push_place(text, spot.name, spot.bytes, spot.at)?;
    push_pieces(text, &[b"warning"])?;
    push_pieces(text, &name_of(scripts, subject))
}

fn push_words(
    text: &mut Vec<u8>,
    sheet: Sheet<'_>,
    tick_us: u32,
    moved: u128,
    warning: Warning,
) -> Result<(), Memory> {
    push_pieces(text, &[b": ", words_of(sheet, warning).as_bytes()])?;
    match warning {
        Warning::Rounded(_) => push_moved(text, moved)?,
        Warning::Coarse(i, time) => push_looked_at(text, sheet, tick_us, i, time)?,
        _ => {}
    }
    push_pieces(text, &[b"\n"])
}

// By how much times are moved, and what helps.
fn push_moved(text: &mut Vec<u8>, moved: u128) -> Result<(), Memory> {
    let mut digits = Buffer::new();
    let us = u64::try_from(moved).unwrap_or(u64::MAX);
    let number = digits.format(us).as_bytes();
    push_pieces(
        text,
        &[number, b" us at most: a smaller tick_us moves it less"],
    )
}

// At which times a sweep looks, and what helps.
fn push_looked_at(
    text: &mut Vec<u8>,
    sheet: Sheet<'_>,
    tick_us: u32,
    i: usize,
    time: SweptTime,
) -> Result<(), Memory> {
    if let Some(fault) = swept_fault(sheet, i) {
        for ticks in swept_time(fault, time).iter().take(2) {
            push_ticks(text, tick_us, *ticks)?;
            push_pieces(text, &[b", "])?;
        }
    }
    push_pieces(
        text,
        &[b".. ms: what lies between is not looked at; write a step of one tick, which is "],
    )?;
    push_ticks(text, tick_us, 1)?;
    push_pieces(text, &[b" ms"])
}

// What it says, of a study or of a line file.
fn words_of(sheet: Sheet<'_>, warning: Warning) -> &'static str {
    match sheet {
        Sheet::Study { .. } => study_words(warning),
        Sheet::Files { .. } => warning_words(warning),
    }
}

fn is_said(sheet: Sheet<'_>, warnings: &[Warning], warning: Warning) -> bool {
    for told in warnings {
        if says(sheet, *told, warning) {
            return true;
        }
    }
    false
}

// Whether the one, where it is told, says the other too: that times were rounded, and of a script
// the same as of the one before it.
fn says(sheet: Sheet<'_>, told: Warning, warning: Warning) -> bool {
    match (told, warning) {
        (Warning::Rounded(j), Warning::Rounded(i)) => j < i,
        (Warning::NothingChanges(r), Warning::NothingChanges(s))
        | (Warning::DueFirst(r), Warning::DueFirst(s)) => is_before(sheet, r, s),
        (Warning::NoCurrent(r, j), Warning::NoCurrent(s, k)) => j == k && is_before(sheet, r, s),
        _ => false,
    }
}

// Whether the one script is right before the other, and both are of one fault of a study.
fn is_before(sheet: Sheet<'_>, r: usize, s: usize) -> bool {
    match sheet {
        Sheet::Study { faults, .. } => {
            r < s && s - r == 1 && fault_of(faults, r) == fault_of(faults, s)
        }
        Sheet::Files { .. } => false,
    }
}
