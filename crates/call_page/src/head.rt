//! The head of a page.

ghost use Rattle.std.specs.Prelude.{◌≡◌, ◌++◌, IfOk, OnOk, map, option_map};
ghost use Rattle.model_line.specs.NamesByNumber.{scheme_initials};
ghost use Rattle.call_page.specs.Sources.{digest_note, notes_of, times_note, times_said};

use crate::said::Asked;
use call_answer::text_of;
use itoa::Buffer;
use model_line::{Line, Memory, scheme_word};
use std::alloc::Global;

/// The words of a page's head.
#[derive(Drop)]
pub struct HeadWords {
    pub title: Vec<u8>,
    pub scheme: Vec<u8>,
    pub terminals: Vec<Vec<u8>>,
    pub made: Vec<u8>,
    pub date: Option<Vec<u8>>,
}

/// What is asked for, and the line's own words.
pub fn head(alloc: Global, line: &Line, asked: &Asked<'_>) -> Result<HeadWords, Memory>
    ensures title { IfOk result (λ head. head.title.items ≡ asked.now.title.now) }
    ensures made { IfOk result (λ head. head.made.items ≡ asked.now.made.now) }
    ensures date { IfOk result (λ head. option_map (λ date. date.items) head.date
        ≡ option_map (λ date. date.now) asked.now.date) }
    ensures scheme { IfOk result (λ head. head.scheme.items ≡ scheme_initials line.now.scheme) }
    ensures terminals { IfOk result (λ head.
        map (λ name. name.items) head.terminals.items
        ≡ map (λ t. t.name) line.now.terminals.items) }
{
    let title = Vec::from_slice(alloc, asked.title)?;
    let scheme = Vec::from_slice(alloc, scheme_word(line.scheme))?;
    let made = Vec::from_slice(alloc, asked.made)?;
    let date = date(alloc, asked.date)?;
    let terminals = terminal_names(alloc, line)?;
    Ok(HeadWords {
        title,
        scheme,
        terminals,
        made,
        date,
    })
}

fn date(alloc: Global, date: Option<&[u8]>) -> Result<Option<Vec<u8>>, Memory>
    ensures { IfOk result (λ said. option_map (λ date. date.items) said
        ≡ option_map (λ date. date.now) date.entry) }
{
    match date {
        Some(date) => Ok(Some(Vec::from_slice(alloc, date)?)),
        None => Ok(None),
    }
}

// The names of the terminals, in line order.
fn terminal_names(alloc: Global, line: &Line) -> Result<Vec<Vec<u8>>, Memory>
    ensures { IfOk result (λ names. map (λ name. name.items) names.items
        ≡ map (λ t. t.name) line.now.terminals.items) }
{
    let mut names = Vec::new(alloc);
    for terminal in &line.terminals {
        let name = Vec::from_slice(alloc, terminal.name.bytes())?;
        names.push(name)?;
    }
    Ok(names)
}

/// What a page of so many scripts leaves out.
pub fn notes(alloc: Global, scripts: usize) -> Result<Vec<Vec<u8>>, Memory>
    ensures { IfOk result (λ notes. map (λ note. note.items) notes.items ≡ notes_of scripts) }
{
    let mut notes = Vec::new(alloc);
    push_times_note(alloc, &mut notes, scripts)?;
    push_digest_note(alloc, &mut notes, scripts)?;
    Ok(notes)
}

fn push_times_note(alloc: Global, notes: &mut Vec<Vec<u8>>, scripts: usize) -> Result<(), Memory>
    ensures { OnOk result (map (λ note. note.items) notes.new.items
        ≡ map (λ note. note.items) notes.old.items ++ times_note scripts) }
{
    if scripts > 64 {
        let note = times_words(alloc, scripts)?;
        notes.push(note)?;
    }
    Ok(())
}

#[tactic(auto, unfolding(crate::specs::Sources::times_said))]
fn times_words(alloc: Global, scripts: usize) -> Result<Vec<u8>, Memory>
    ensures { IfOk result (λ note. note.items ≡ times_said scripts) }
{
    let mut digits = Buffer::new();
    let pieces: [&[u8]; 3] = [
        b"The study comes to ",
        digits.format(scripts as u64).as_bytes(),
        b" scripts. How far times may move is worked out here for at most 64, as `study scripts --part` gives them; `study margins` does it for 4,096.",
    ];
    text_of(alloc, &pieces)
}

fn push_digest_note(alloc: Global, notes: &mut Vec<Vec<u8>>, scripts: usize) -> Result<(), Memory>
    ensures { OnOk result (map (λ note. note.items) notes.new.items
        ≡ map (λ note. note.items) notes.old.items ++ digest_note scripts) }
{
    if scripts > 4096 {
        let note = Vec::from_slice(
            alloc,
            b"The digest of the settled trees is worked out for at most 4,096 scripts.",
        )?;
        notes.push(note)?;
    }
    Ok(())
}
