//! What the words ask for.

ghost use Rattle.std.specs.Prelude.{◌≡◌, ◌≤◌, ◌<◌, ◌+◌, ◌++◌, ◌^◌, Err, Ok, IfOk, OnOk, IfSome, IsTrue, List, None, length, map};
ghost use Rattle.std.specs.List.{All};
ghost use Rattle.model_line.specs.Parameters.{is_delay as is_delay_of, param_count};
ghost use Rattle.file_study.specs.times.{Names.params_of as params_for, Parts.names_of as names_for};
ghost use Rattle.call_choose.specs.Asked.{delay_fault, fault_by, first_delay as first_delay_of, unknown_in};
ghost use Rattle.call_choose.specs.Asked.{rows_asked, word_asked, words_asked};
ghost use Rattle.call_choose.specs.Rows.{AreRows, Row};
ghost use Rattle.call_choose.specs.declared.fault.ChooseFault.{ChooseFault as FaultOf};
ghost use Rattle.base_memory.specs.declared.stopped.Stopped.TheVariants.{Fault};

use crate::fault::ChooseFault;
use crate::known::unknown;
use crate::own::words_of;
use crate::settings::{Settings, push_rows};
use base_memory::{Memory, Stopped};
use file_study::times::{names_of, params_of};
use model_line::Line;
use std::alloc::Global;

/// The settings that words ask for, those of the line where there are none; or the first fault.
pub fn settings_of(
    alloc: Global,
    line: &Line,
    words: &[&str],
) -> Result<Settings, Stopped<ChooseFault>>
    ensures is { IfOk result (λ all. (rows : List Row)
        × (rows_asked line.now (map (λ word. word.now) words.now) ≡ Ok rows)
        × AreRows line.now rows all.names.items all.settings.items) }
    ensures denied { (why : FaultOf) → result ≡ Err (Fault why) →
        rows_asked line.now (map (λ word. word.now) words.now) ≡ Err why }
{
    let words = words_of(alloc, line, words)?;
    let mut all = Settings {
        names: Vec::new(alloc),
        settings: Vec::new(alloc),
    };
    push_words(alloc, &mut all, line, 0, &words)?;
    Ok(all)
}

// Appends the settings of words, the first of which has this place, or the first fault.
fn push_words(
    alloc: Global,
    all: &mut Settings,
    line: &Line,
    place: usize,
    words: &[Vec<u8>],
) -> Result<(), Stopped<ChooseFault>>
    requires { place + length words.now < 2 ^ 64 }
    ensures is { OnOk result ((rows : List Row)
        × (words_asked line.now place (map (λ word. word.items) words.now) ≡ Ok rows)
        × ((before : List Row) → AreRows line.now before all.old.names.items all.old.settings.items →
        AreRows line.now (before ++ rows) all.new.names.items all.new.settings.items)) }
    ensures denied { (why : FaultOf) → result ≡ Err (Fault why) →
        words_asked line.now place (map (λ word. word.items) words.now) ≡ Err why }
{
    match words {
        [] => Ok(()),
        [word, words @ ..] => {
            push_word(alloc, all, line, place, word)?;
            push_words(alloc, all, line, place + 1, words)
        }
    }
}

// Appends the settings of a word, or its fault.
fn push_word(
    alloc: Global,
    all: &mut Settings,
    line: &Line,
    place: usize,
    word: &[u8],
) -> Result<(), Stopped<ChooseFault>>
    ensures is { OnOk result ((rows : List Row) × (word_asked line.now place word.now ≡ Ok rows)
        × ((before : List Row) → AreRows line.now before all.old.names.items all.old.settings.items →
        AreRows line.now (before ++ rows) all.new.names.items all.new.settings.items)) }
    ensures denied { (why : FaultOf) → result ≡ Err (Fault why) →
        word_asked line.now place word.now ≡ Err why }
{
    let params = params_of(alloc, line, names_of(word))?;
    match denied(alloc, line, place, word, &params)? {
        Some(why) => Err(Stopped::Fault(why)),
        None => {
            push_rows(alloc, all, line, word, params)?;
            Ok(())
        }
    }
}

// Why nothing is told of a word for which these parameters stand, if nothing is.
fn denied(
    alloc: Global,
    line: &Line,
    place: usize,
    word: &[u8],
    params: &[u32],
) -> Result<Option<ChooseFault>, Memory>
    requires are { params.now ≡ params_for line.now (names_for word.now) }
    requires exist { All (λ param. param < param_count line.now) params.now }
    ensures told { IfOk result (λ why. why
        ≡ fault_by line.now place word.now (unknown_in line.now (names_for word.now))) }
    ensures numbers { IfOk result (λ why. why ≡ None →
        All (λ param. ¬ (IsTrue (is_delay_of line.now param))) params.now) }
{
    if let Some(k) = unknown(alloc, line, names_of(word))? {
        return Ok(Some(ChooseFault::Unknown {
            place,
            number: k + 1,
        }));
    }
    Ok(delayed(line, place, params))
}

// That a parameter is a delay, of the first that is one.
fn delayed(line: &Line, place: usize, params: &[u32]) -> Option<ChooseFault>
    requires exist { All (λ param. param < param_count line.now) params.now }
    ensures is { result ≡ delay_fault line.now place (first_delay_of line.now params.now) }
    ensures numbers { result ≡ None →
        All (λ param. ¬ (IsTrue (is_delay_of line.now param))) params.now }
{
    match first_delay(line, params) {
        Some(param) => Some(ChooseFault::Delay {
            place,
            name: line.params[param as usize].name,
        }),
        None => None,
    }
}

// The first of these that is a delay.
fn first_delay(line: &Line, params: &[u32]) -> Option<u32>
    requires exist { All (λ param. param < param_count line.now) params.now }
    ensures is { result ≡ first_delay_of line.now params.now }
    ensures exists { IfSome result (λ param. param < param_count line.now) }
    ensures numbers { result ≡ None →
        All (λ param. ¬ (IsTrue (is_delay_of line.now param))) params.now }
{
    match params {
        [] => None,
        [param, params @ ..] => {
            if line.is_delay(*param) {
                Some(*param)
            } else {
                first_delay(line, params)
            }
        }
    }
}
