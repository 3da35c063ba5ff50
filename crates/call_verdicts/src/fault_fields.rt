//! The fields of a record of the table of faults that are of its worst place.

ghost use Rattle.std.specs.Prelude.{◌≡◌, [], IfOk, get_or, map};
ghost use Rattle.model_line.specs.NamesByNumber.{kind_text};
ghost use Rattle.call_verdicts.specs.Records.{margin_text as margin_text_of};
ghost use Rattle.call_verdicts.specs.Records.{trip_text as trip_text_of};

use crate::fields::{TripText, told_of_trip};
use crate::verdict::Verdict;
use model_line::{Memory, kind_word};
use std::alloc::Global;

/// What is told of the trip at a place; nothing where there is no such place.
pub fn told_at(
    alloc: Global,
    tick_us: u32,
    verdicts: &[Verdict],
    place: usize,
) -> Result<TripText, Memory>
    ensures trip { IfOk result (λ t. t.trip.items
        ≡ get_or (map (λ v. trip_text_of tick_us v.first_must) verdicts.now) place []) }
    ensures margin { IfOk result (λ t. t.margin.items
        ≡ get_or (map (λ v. margin_text_of tick_us v.kind v.deadline v.first_must) verdicts.now)
        place []) }
{
    match verdicts.get(place) {
        Some(one) => told_of_trip(alloc, tick_us, one.kind, one.deadline, one.first_must),
        None => Ok(TripText {
            trip: Vec::new(alloc),
            margin: Vec::new(alloc),
        }),
    }
}

/// The kind of the fault of these, as a word; nothing where there are none.
pub fn kind_of(verdicts: &[Verdict]) -> &'static [u8]
    ensures { result.now ≡ get_or (map (λ v. kind_text v.kind) verdicts.now) 0 [] }
{
    match verdicts.first() {
        Some(one) => kind_word(one.kind),
        None => b"",
    }
}
