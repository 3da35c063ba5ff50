//! Two versions side by side.

ghost use Rattle.std.specs.Prelude.{◌≡◌, IfOk, map};
ghost use Rattle.csv.specs.Records.{fields_of};
ghost use Rattle.call_compare.specs.Compared.{are_lost, compared_text, is_lost, loses, table_told};

use crate::change::{Change, change_of};
use crate::told::{Versions, is_of, push_gone, push_group};
use crate::versions::rows_of;
use base_memory::Memory;
use call_columns::all_rows;
use csv::ByteRecord;
use std::alloc::Global;

/// The records of what changed (CSV), and whether something that was held is not now.
#[derive(Drop)]
pub struct Compared {
    pub text: Vec<u8>,
    pub is_lost: bool,
}

/// What changed from one text of verdicts by fault (CSV) to another: of each fault at each terminal both
/// versions, what was held and is not now first.
pub fn compare(alloc: Global, old: &[u8], new: &[u8]) -> Result<Compared, Memory>
    ensures text { IfOk result (λ both. both.text.items ≡ compared_text old.now new.now) }
    ensures is_lost { IfOk result (λ both. both.is_lost ≡ loses old.now new.now) }
{
    let old = all_rows(alloc, old)?;
    let new = all_rows(alloc, new)?;
    let both = Versions {
        old: old.as_slice(),
        new: new.as_slice(),
    };
    Ok(Compared {
        text: table(alloc, both)?,
        is_lost: loses_some(both),
    })
}

fn table(alloc: Global, both: Versions<'_>) -> Result<Vec<u8>, Memory>
    ensures { IfOk result (λ text. text.items
        ≡ table_told (map fields_of both.entry.old.now) (map fields_of both.entry.new.now)) }
{
    let mut text = Vec::from_slice(alloc, HEADER)?;
    push_group(alloc, &mut text, Change::Lost, both)?;
    push_group(alloc, &mut text, Change::Other, both)?;
    push_group(alloc, &mut text, Change::Gained, both)?;
    push_group(alloc, &mut text, Change::Added, both)?;
    push_gone(alloc, &mut text, both)?;
    push_group(alloc, &mut text, Change::Same, both)?;
    Ok(text)
}

const HEADER: &[u8] =
    b"fault,terminal,change,held_was,held,fails_was,fails,open_was,open,not_held_ms_was,not_held_ms,margin_ms_was,margin_ms\n";

fn loses_some(both: Versions<'_>) -> bool
    ensures { result ≡ is_lost (map fields_of both.entry.old.now) (map fields_of both.entry.new.now) }
{
    some_lost(both, rows_of(both.new))
}

fn some_lost(both: Versions<'_>, rows: &[ByteRecord]) -> bool
    ensures { result ≡ are_lost (map fields_of both.entry.old.now) (map fields_of both.entry.new.now)
        (map fields_of rows.now) }
{
    for now in rows {
        if is_of(Change::Lost, change_of(both.old, both.new, now)) {
            return true;
        }
    }
    false
}
