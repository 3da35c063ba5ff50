//! What stands at the margin of each sheet on paper: the title, and the files with their digests.

ghost use Rattle.std.specs.Prelude.{◌≡◌, ◌++◌, IfOk, OnOk};
ghost use Rattle.std.specs.List.{flat_map};
ghost use Rattle.draw_page.specs.Running.{quoted, quoted_character, running_date, running_file, running_files};
ghost use Rattle.draw_page.specs.Running.{running_words};

use crate::page::{FileText, Page};
use crate::signing::begun;
use crate::words::words_of;
use std::alloc::{AllocError, Global};

/// The rules of the margins of sheets.
#[tactic(auto, unfolding(crate::specs::Running::running_words))]
pub fn running(alloc: Global, page: &Page) -> Result<Vec<u8>, AllocError>
    ensures { IfOk result (λ text. text.items ≡ running_words page.now) }
{
    let mut title = Vec::new(alloc);
    put_quoted(&mut title, page.title.as_slice())?;
    let files = files(alloc, page)?;
    words_of(
        alloc,
        &[
            b"@page { @top-left { content: '",
            title.as_slice(),
            b"'; font: 8pt sans-serif } @bottom-left { content: '",
            files.as_slice(),
            b"'; font: 8pt sans-serif } }\n",
        ],
    )
}

// The files with their digests, and the date.
fn files(alloc: Global, page: &Page) -> Result<Vec<u8>, AllocError>
    ensures { IfOk result (λ text. text.items ≡ running_files page.now) }
{
    let mut text = Vec::new(alloc);
    put_files(&mut text, page.sources.as_slice())?;
    put_date(&mut text, &page.date)?;
    Ok(text)
}

fn put_files(text: &mut Vec<u8>, files: &[FileText]) -> Result<(), AllocError>
    ensures { OnOk result (text.new.items ≡ text.old.items ++ flat_map running_file files.now) }
{
    for file in files {
        put_file(text, file)?;
    }
    Ok(())
}

fn put_file(text: &mut Vec<u8>, file: &FileText) -> Result<(), AllocError>
    ensures { OnOk result (text.new.items ≡ text.old.items ++ running_file file.now) }
{
    put_quoted(text, file.name.as_slice())?;
    text.extend_from_slice(b", SHA-256 ")?;
    put_quoted(text, begun(file))?;
    text.extend_from_slice(b". ")
}

fn put_date(text: &mut Vec<u8>, date: &Option<Vec<u8>>) -> Result<(), AllocError>
    ensures { OnOk result (text.new.items ≡ text.old.items ++ running_date date.now) }
{
    match date {
        Some(date) => put_quoted(text, date.as_slice()),
        None => Ok(()),
    }
}

// Appends words as they stand between single quotes.
fn put_quoted(text: &mut Vec<u8>, words: &[u8]) -> Result<(), AllocError>
    ensures { OnOk result (text.new.items ≡ text.old.items ++ quoted words.now) }
{
    for letter in words {
        put_character(text, *letter)?;
    }
    Ok(())
}

#[tactic(auto, unfolding(crate::specs::Running::quoted_character))]
fn put_character(text: &mut Vec<u8>, letter: u8) -> Result<(), AllocError>
    ensures { OnOk result (text.new.items ≡ text.old.items ++ quoted_character letter) }
{
    if letter == b'\'' {
        text.extend_from_slice(b"\\000027")
    } else if letter == b'\\' {
        text.extend_from_slice(b"\\00005C")
    } else if letter == b'<' {
        text.extend_from_slice(b"\\00003C")
    } else if letter < 32 {
        text.extend_from_slice(b" ")
    } else {
        text.push(letter)?;
        Ok(())
    }
}
