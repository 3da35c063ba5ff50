//! The line of what is settled of a record.

ghost use Rattle.std.specs.Prelude.{◌≡◌, ◌++◌, ◌<◌, OnOk, IfOk};
ghost use Rattle.base_text.specs.lines.SpacedNumbers.{numbers_text, spaced};
ghost use Rattle.judge_match.specs.matching.MatchText.{IsWritten, match_line, match_words, clash_words};
ghost use Rattle.judge_match.specs.matching.MatchText.{signal_word as word_of_signal};

use crate::matching::seen::Match;
use base_text::lines::push_number;
use model_line::{Line, Memory, Script, name_of_terminal};
use run_changes::rows::level_word;
use run_signal::{Tern, Tick};
use run_waves::waves::tern_word;
use std::alloc::Global;

/// The line of a script's record: `SCRIPT explained VALUES`,
/// `SCRIPT impossible TERMINAL SIGNAL TICK seen L derived L` or `SCRIPT open`.
pub fn match_text(
    alloc: Global,
    line: &Line,
    script: &Script,
    settled: &Match,
) -> Result<Vec<u8>, Memory>
    requires written { IsWritten line.now settled.now }
    ensures text { IfOk result (λ text. text.items
        ≡ match_line line.now script.now settled.now) }
{
    let mut text = Vec::from_slice(alloc, script.name.bytes())?;
    push_words(&mut text, line, settled)?;
    text.extend_from_slice(b"\n")?;
    Ok(text)
}

fn push_words(text: &mut Vec<u8>, line: &Line, settled: &Match) -> Result<(), Memory>
    requires { IsWritten line.now settled.now }
    ensures { OnOk result (text.new.items ≡ text.old.items ++ match_words line.now settled.now) }
{
    match settled {
        Match::Explained(timing) => {
            text.extend_from_slice(b" explained")?;
            push_values(text, timing.values())
        }
        Match::Impossible {
            terminal,
            trip,
            tick,
            level,
            derived,
        } => {
            text.extend_from_slice(b" impossible ")?;
            text.extend_from_slice(name_of_terminal(line, *terminal))?;
            push_clash(text, *trip, *tick, *level, *derived)
        }
        Match::Unsettled => {
            text.extend_from_slice(b" open")?;
            Ok(())
        }
    }
}

// Appends what stands behind the terminal.
fn push_clash(
    text: &mut Vec<u8>,
    trip: bool,
    tick: u32,
    level: bool,
    derived: Tern,
) -> Result<(), Memory>
    ensures { OnOk result (text.new.items
        ≡ text.old.items ++ clash_words trip tick level derived) }
{
    text.extend_from_slice(b" ")?;
    text.extend_from_slice(signal_word(trip))?;
    push_number(text, tick)?;
    text.extend_from_slice(b" seen ")?;
    text.extend_from_slice(level_word(level))?;
    text.extend_from_slice(b" derived ")?;
    text.extend_from_slice(tern_word(derived))?;
    Ok(())
}

fn signal_word(trip: bool) -> &'static [u8]
    ensures { result.now ≡ word_of_signal trip }
{
    if trip { b"trip" } else { b"key" }
}

// Appends each number after one space.
fn push_values(text: &mut Vec<u8>, values: &[Tick]) -> Result<(), Memory>
    ensures { OnOk result (text.new.items ≡ text.old.items ++ numbers_text values.now) }
{
    for value in values {
        push_value(text, *value)?;
    }
    Ok(())
}

fn push_value(text: &mut Vec<u8>, value: Tick) -> Result<(), Memory>
    ensures { OnOk result (text.new.items ≡ text.old.items ++ spaced value) }
{
    push_number(text, value.value())?;
    Ok(())
}
