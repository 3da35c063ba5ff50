//! One line for each of several items.

ghost use Rattle.std.specs.Prelude.{◌≡◌, ◌++◌, [], ◌∷◌, List, ℕ, IfOk, MatchOption, MatchResult};
ghost use Rattle.std.specs.Prelude.{length, map};
ghost use Rattle.base_text.specs.lines.Grammar.{Grammar, Reads, IsFault, one_line_each};

use crate::lines::cursor::LineCursor;
use crate::lines::fault::TextFault;
use crate::lines::part::{PartReader, read_each};
use base_memory::{Memory, Stopped};
use std::alloc::Global;

/// A reader of one line for an item.
pub trait LineReader {
    /// What the line stands for.
    type Item;
    /// What is read.
    type Part: Drop;

    ghost grammar: { Self → Grammar };

    /// The place of an item.
    ghost place: { (reader : Self) → Self.Item → (grammar reader).Place };

    /// What the line of a part says.
    ghost says: { (reader : Self) → Self.Part → (grammar reader).Said };

    /// Reads the line of an item. None where it cannot stand there.
    fn read_line(
        &self,
        alloc: Global,
        item: &Self::Item,
        line: &[u8],
    ) -> Result<Option<Self::Part>, Memory>
        ensures { IfOk result (λ read. MatchOption read
            ((said : (grammar self.now).Said) →
            ¬ ((grammar self.now).stands (place self.now item.now) said line.now))
            (λ part. (grammar self.now).stands (place self.now item.now) (says self.now part)
            line.now)) };

    /// No line opens others.
    ghost opens_none: { (reader : Self) (item : Self.Item) (said : (grammar reader).Said)
        → (grammar reader).opens (place reader item) said ≡ [] };
}

// Reads the line of an item as its part.
#[derive(Clone, Copy)]
struct OneLine<'a, R> {
    reader: &'a R,
}

impl<'a, R: LineReader> PartReader for OneLine<'a, R> {
    type Item = R::Item;

    type Part = R::Part;

    ghost Meaning = { R.Part };

    ghost meaning = { λ part. part };

    ghost parts = { λ one. one_line_each (R.grammar one.reader.now) (R.place one.reader.now)
        (R.says one.reader.now) };

    fn read(
        &self,
        alloc: Global,
        item: &R::Item,
        lines: &mut LineCursor<'_>,
    ) -> Result<R::Part, Stopped<TextFault>> {
        let number = lines.number;
        let line = lines.take_line()?;
        match self.reader.read_line(alloc, item, line)? {
            Some(part) => Ok(part),
            None => Err(Stopped::Fault(TextFault { line: number })),
        }
    }
}

/// Reads the line of each item, in order.
pub fn read_lines<R: LineReader>(
    alloc: Global,
    reader: &R,
    items: &[R::Item],
    lines: &mut LineCursor<'_>,
) -> Result<Vec<R::Part>, Stopped<TextFault>>
    ensures { (later : List (R.grammar reader.now).Place) → MatchResult result
        (λ parts. (length parts.items ≡ length items.now)
        × Reads (R.grammar reader.now) (map (R.place reader.now) items.now) (map (R.says reader.now) parts.items) later
        lines.old.rest.now lines.old.number lines.new.rest.now lines.new.number)
        (λ why. IsFault (R.grammar reader.now) (map (R.place reader.now) items.now ++ later)
        lines.old.rest.now lines.old.number why) }
{
    read_each(alloc, &OneLine { reader }, items, lines)
}
