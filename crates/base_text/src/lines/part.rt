//! The parts of a text, one for each of several items.

ghost use Rattle.std.specs.Prelude.{◌≡◌, ◌++◌, ℕ, List, MatchResult, length, map};
ghost use Rattle.std.specs.List.{All};
ghost use Rattle.base_text.specs.lines.Grammar.{Parts, Reads, IsFault, all_places, all_said};

use crate::lines::cursor::LineCursor;
use crate::lines::fault::TextFault;
use base_memory::Stopped;
use std::alloc::Global;

/// A reader of the lines that stand for one item.
pub trait PartReader {
    /// What the lines stand for.
    type Item;
    /// What is read.
    type Part: Drop;

    /// What can be meant by a part.
    ghost Meaning: { Type 0 };

    ghost meaning: { Self.Part → Meaning };

    /// The parts of the text.
    ghost parts: { Self → Parts Self.Item Meaning };

    /// Reads the lines of an item.
    fn read(
        &self,
        alloc: Global,
        item: &Self::Item,
        lines: &mut LineCursor<'_>,
    ) -> Result<Self::Part, Stopped<TextFault>>
        ensures { (later : List (parts self.now).grammar.Place) → MatchResult result
            (λ part. (parts self.now).IsWhole (meaning part)
            × Reads (parts self.now).grammar ((parts self.now).places item.now)
            ((parts self.now).said (meaning part)) later
            lines.old.rest.now lines.old.number lines.new.rest.now lines.new.number)
            (λ why. IsFault (parts self.now).grammar ((parts self.now).places item.now ++ later)
            lines.old.rest.now lines.old.number why) };
}

/// Reads the lines of each item, in order.
pub fn read_each<R: PartReader>(
    alloc: Global,
    reader: &R,
    items: &[R::Item],
    lines: &mut LineCursor<'_>,
) -> Result<Vec<R::Part>, Stopped<TextFault>>
    ensures { (later : List (R.parts reader.now).grammar.Place) → MatchResult result
        (λ parts. (length parts.items ≡ length items.now)
        × All (R.parts reader.now).IsWhole (map R.meaning parts.items)
        × Reads (R.parts reader.now).grammar (all_places (R.parts reader.now) items.now)
        (all_said (R.parts reader.now) (map R.meaning parts.items)) later
        lines.old.rest.now lines.old.number lines.new.rest.now lines.new.number)
        (λ why. IsFault (R.parts reader.now).grammar
        (all_places (R.parts reader.now) items.now ++ later)
        lines.old.rest.now lines.old.number why) }
{
    let mut parts = Vec::new(alloc);
    for item in items {
        let part = reader.read(alloc, item, lines)?;
        parts.push(part)?;
    }
    Ok(parts)
}
