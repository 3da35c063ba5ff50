//! A whole text: its first line, its parts and its last line.

ghost use Rattle.std.specs.Prelude.{◌≡◌, [], MatchResult, length, map};
ghost use Rattle.std.specs.List.{All};
ghost use Rattle.base_text.specs.lines.Grammar.{IsText, IsTextFault, IsFault, IsEnded, ended};
ghost use Rattle.base_text.specs.lines.Grammar.{all_places, all_said};

use crate::lines::cursor::LineCursor;
use crate::lines::fault::TextFault;
use crate::lines::part::{PartReader, read_each};
use base_memory::Stopped;
use std::alloc::Global;

/// Reads a text of the items, between this first line and this last one: what it says of each in
/// order, or the first line that cannot stand.
pub fn read_text<R: PartReader>(
    alloc: Global,
    reader: &R,
    first: &[u8],
    items: &[R::Item],
    last: &[u8],
    bytes: &[u8],
) -> Result<Vec<R::Part>, Stopped<TextFault>>
    ensures { MatchResult result
        (λ meant. IsText (R.parts reader.now) first.now items.now last.now
        (map R.meaning meant.items) bytes.now)
        (λ why. IsTextFault (R.parts reader.now) first.now items.now last.now bytes.now why) }
{
    let mut lines = LineCursor::new(bytes);
    lines.take(first)?;
    read_rest(alloc, reader, items, last, &mut lines)
}

// Reads what comes after the first line.
fn read_rest<R: PartReader>(
    alloc: Global,
    reader: &R,
    items: &[R::Item],
    last: &[u8],
    lines: &mut LineCursor<'_>,
) -> Result<Vec<R::Part>, Stopped<TextFault>>
    ensures { MatchResult result
        (λ parts. (length parts.items ≡ length items.now)
        × All (R.parts reader.now).IsWhole (map R.meaning parts.items)
        × IsEnded (R.parts reader.now).grammar (all_places (R.parts reader.now) items.now) last.now
        (all_said (R.parts reader.now) (map R.meaning parts.items)) lines.old.rest.now)
        (λ why. IsFault (R.parts reader.now).grammar
        (ended (R.parts reader.now).grammar (all_places (R.parts reader.now) items.now) last.now)
        lines.old.rest.now lines.old.number why) }
{
    let parts = read_each(alloc, reader, items, lines)?;
    take_last(reader, last, lines)?;
    Ok(parts)
}

// Takes the last line, after which nothing comes.
fn take_last<R: PartReader>(
    reader: &R,
    last: &[u8],
    lines: &mut LineCursor<'_>,
) -> Result<(), Stopped<TextFault>>
    ensures { MatchResult result
        (λ _. IsEnded (R.parts reader.now).grammar [] last.now [] lines.old.rest.now)
        (λ why. IsFault (R.parts reader.now).grammar (ended (R.parts reader.now).grammar [] last.now)
        lines.old.rest.now lines.old.number why) }
{
    lines.take(last)?;
    if lines.rest.is_empty() {
        Ok(())
    } else {
        Err(Stopped::Fault(TextFault { line: lines.number }))
    }
}
