//! The settings that are told of where none is named.

ghost use Rattle.std.specs.Prelude.{◌≡◌, ◌++◌, ◌∷◌, ◌<◌, [], IfOk, OnOk, map};
ghost use Rattle.std.specs.Prelude.{if◌then◌else◌};
ghost use Rattle.model_line.specs.Parameters.{param_count};
ghost use Rattle.file_study.specs.times.Names.{setting_in};
ghost use Rattle.call_choose.specs.Rows.{is_first as is_first_of, is_own as is_own_of, own_words as own_words_of};
ghost use Rattle.call_choose.specs.Rows.{star_word as star_word_of, words_or_own};

use base_text::lines::find_byte;
use call_answer::text_of;
use model_line::{Line, Memory, name_of_parameter};
use std::alloc::Global;

/// The words that are given; where there are none, each setting of the line that is no delay, with `*`
/// in place of its terminal, in the order of the parameters.
pub fn words_of(alloc: Global, line: &Line, given: &[&str]) -> Result<Vec<Vec<u8>>, Memory>
    ensures { IfOk result (λ words. map (λ word. word.items) words.items
        ≡ words_or_own line.now (map (λ word. word.now) given.now)) }
{
    match given {
        [] => own_words(alloc, line),
        [_, ..] => copied(alloc, given),
    }
}

fn copied(alloc: Global, given: &[&str]) -> Result<Vec<Vec<u8>>, Memory>
    ensures { IfOk result (λ words. map (λ word. word.items) words.items
        ≡ map (λ word. word.now) given.now) }
{
    let mut words = Vec::new(alloc);
    for word in given {
        words.push(Vec::from_slice(alloc, word.as_bytes())?)?;
    }
    Ok(words)
}

fn own_words(alloc: Global, line: &Line) -> Result<Vec<Vec<u8>>, Memory>
    ensures { IfOk result (λ words. map (λ word. word.items) words.items ≡ own_words_of line.now) }
{
    let mut words = Vec::new(alloc);
    for i in 0..line.param_count() {
        push_own(alloc, &mut words, line, i)?;
    }
    Ok(words)
}

// Appends the word of a parameter's setting, if it is one to tell of.
fn push_own(alloc: Global, words: &mut Vec<Vec<u8>>, line: &Line, i: u32) -> Result<(), Memory>
    requires { i < param_count line.now }
    ensures { OnOk result (map (λ word. word.items) words.new.items
        ≡ map (λ word. word.items) words.old.items
        ++ (if is_own_of line.now i then star_word_of line.now i ∷ [] else [])) }
{
    if is_own(line, i) {
        let word = star_word(alloc, line, i)?;
        words.push(word)?;
    }
    Ok(())
}

fn is_own(line: &Line, i: u32) -> bool
    requires { i < param_count line.now }
    ensures { result ≡ is_own_of line.now i }
{
    !line.is_delay(i) && is_first(line, i)
}

// Whether no parameter before this one has the same setting.
fn is_first(line: &Line, i: u32) -> bool
    ensures { result ≡ is_first_of line.now i }
{
    let own = setting(name_of_parameter(line, i));
    let mut found = false;
    for j in 0..i {
        found = setting(name_of_parameter(line, j)) == own || found;
    }
    !found
}

fn star_word(alloc: Global, line: &Line, i: u32) -> Result<Vec<u8>, Memory>
    ensures { IfOk result (λ word. word.items ≡ star_word_of line.now i) }
{
    text_of(alloc, &[b"*", setting(name_of_parameter(line, i))])
}

fn setting(name: &[u8]) -> &[u8]
    ensures { result.now ≡ setting_in name.now }
{
    &name[find_byte(name, b'.')..]
}
