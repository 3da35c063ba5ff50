//! The checks of one record, each of them alone.

ghost use Rattle.std.specs.Prelude.{◌≡◌, ◌<◌, ◌↔◌, IsTrue, length, option_map, option_to_list};
ghost use Rattle.std.specs.List.{list_any};
ghost use Rattle.std.specs.Str.{bytes_eq};
ghost use Rattle.base_text.specs.store.Number.{number_of};
ghost use Rattle.file_tables.specs.script.Row.{row_of};
ghost use Rattle.base_records.specs.SoFar.{all_of, so_far_of};
ghost use Rattle.file_tables.specs.script.Values.{values_of};
ghost use Rattle.file_tables.specs.script.Checks.{is_taken, has_good_name, what_at, deadline_of};
ghost use Rattle.file_tables.specs.script.Checks.{span_between};

use crate::script::fields::Fields;
use crate::script::item::{Item, item_named, opens};
use base_records::{Reading, is, is_nothing};
use base_text::store::number;
use model_line::{Kind, Line, Place, Script, SeenSpan, What, is_plain};
use model_names::{channel_of_name, terminal_of_name};

/// Whether the record's name is plain and, in a head, that of no head before it.
pub fn is_named_well(reading: &Reading<Script>, fields: Fields) -> bool
    ensures { result ≡ has_good_name (so_far_of values_of reading.now) (row_of fields.entry) }
{
    is_plain(fields.name) && !(opens(item_named(fields.item)) && is_used(reading, fields.name))
}

#[tactic(auto, using(crate::proofs::script_lemmas::Taken::taken_split))]
fn is_used(reading: &Reading<Script>, name: &[u8]) -> bool
    ensures { result ≡ is_taken (so_far_of values_of reading.now) name.now }
{
    is_any(reading.done.as_slice(), name) || is_latest(&reading.latest, name)
}

fn is_any(scripts: &[Script], name: &[u8]) -> bool
    ensures { result ≡ list_any (λ script. bytes_eq script.name name.now) scripts.now }
{
    scripts.iter().any(|script| is(script.name.bytes(), name))
}

fn is_latest(latest: &Option<Script>, name: &[u8]) -> bool
    ensures { result ≡ list_any (λ script. bytes_eq script.name name.now)
        (option_to_list (option_map values_of latest.now)) }
{
    match latest {
        Some(script) => is(script.name.bytes(), name),
        None => false,
    }
}

/// Whether there are fewer than 64 heads.
pub fn has_room(reading: &Reading<Script>) -> bool
    ensures { IsTrue result ↔ (length (all_of (so_far_of values_of reading.now)) < 64) }
{
    let latest = if reading.latest.is_some() { 1 } else { 0 };
    reading.done.len() < 64 - latest
}

/// What a row of this item shows, by the name of its place.
pub fn what_named(line: &Line, item: Item, place: &[u8]) -> Option<What>
    ensures { result ≡ what_at line.now item place.now }
{
    match item {
        Item::Head(_) => None,
        Item::Seen(element) => Some(What::Element(Place {
            element,
            terminal: terminal_of_name(line, place)?,
        })),
        Item::Lost => Some(What::Loss(channel_of_name(line, place)?)),
    }
}

/// The deadline of a head of this kind.
pub fn deadline(line: &Line, kind: Kind, from: &[u8], to: &[u8]) -> Option<u32>
    ensures { result ≡ deadline_of line.now kind from.now to.now }
{
    match kind {
        Kind::Internal => {
            if !is_nothing(to) {
                return None;
            }
            let deadline = number(from)?;
            if deadline < line.horizon {
                Some(deadline)
            } else {
                None
            }
        }
        Kind::External => {
            if is_nothing(from) && is_nothing(to) {
                Some(0)
            } else {
                None
            }
        }
    }
}

/// The span of a row.
pub fn span(horizon: u32, what: What, from: &[u8], to: &[u8]) -> Option<SeenSpan>
    ensures { result ≡ span_between horizon what (number_of from.now) (number_of to.now) }
{
    let from = number(from)?;
    let to = number(to)?;
    if from < to && to <= horizon {
        Some(SeenSpan { what, from, to })
    } else {
        None
    }
}
