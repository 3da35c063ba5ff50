//! When a part is looked at, where one of its borders stands still.

ghost use Rattle.std.specs.Prelude.{◌≡◌, ◌≤◌, ◌+◌, ◌-◌};
ghost use Rattle.model_borders.specs.Borders.{earliest, latest, earliest_alone};
ghost use Rattle.judge_borders.specs.Parts.{CanAsk, IsPart};

use crate::fault::Fault;
use model_borders::{earliest_at, earliest_place, latest_at};
use run_signal::Within;

/// The earliest deadline and the latest, and the last tick before which an external fault is watched.
#[derive(Clone, Copy)]
pub(crate) struct View {
    pub first: u32,
    pub last: u32,
    pub end: u32,
}

/// When to look, where a border stands still at that place.
pub(crate) fn view_of(fault: &Fault<'_>, part: &[Within], still: u32, place: u32) -> View
    requires fault { CanAsk fault.now }
    requires part { IsPart part.now }
    requires place { place ≤ 17000000 }
    ensures first { result.first
        ≡ earliest fault.now.script.now.borders.items part.now still place fault.now.asked.counted
        + fault.now.asked.within }
    ensures last { result.last
        ≡ latest fault.now.script.now.borders.items part.now still place fault.now.asked.counted
        + fault.now.asked.within }
    ensures end { result.end ≡ fault.now.asked.end
        + (place - earliest_alone fault.now.script.now.borders.items part.now still) }
{
    let borders = fault.script.borders.as_slice();
    let asked = fault.asked;
    let earliest = earliest_place(borders, part, still);
    View {
        first: earliest_at(borders, part, still, place, asked.counted) + asked.within,
        last: latest_at(borders, part, still, place, asked.counted) + asked.within,
        end: asked.end + place.saturating_sub(earliest),
    }
}
