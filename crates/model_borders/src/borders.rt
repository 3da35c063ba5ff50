//! Where borders stand.

ghost use Rattle.std.specs.Prelude.{◌≡◌, ◌≤◌, ◌*◌, length, get_or};
ghost use Rattle.model_borders.specs.Borders.{fixed_in, times_in, ends_at, reach, alone};
ghost use Rattle.model_borders.specs.Borders.{earliest, latest, earliest_alone, latest_alone};

use crate::script::Border;
use run_signal::Within;

/// The earliest tick at which a border may stand.
pub fn earliest_place(borders: &[Border], part: &[Within], border: u32) -> u32
    requires { length part.now ≤ 16 }
    ensures place { result ≡ earliest_alone borders.now part.now border }
    ensures limited { result ≤ 17000000 }
{
    alone(borders, part, border, false)
}

/// The latest tick at which a border may stand.
pub fn latest_place(borders: &[Border], part: &[Within], border: u32) -> u32
    requires { length part.now ≤ 16 }
    ensures place { result ≡ latest_alone borders.now part.now border }
    ensures limited { result ≤ 17000000 }
{
    alone(borders, part, border, true)
}

// The sum of a border, at the least lengths or at the greatest.
fn alone(borders: &[Border], part: &[Within], border: u32, late: bool) -> u32
    requires { length part.now ≤ 16 }
    ensures sum { result ≡ alone borders.now part.now late border }
    ensures limited { result ≤ 17000000 }
{
    let mut sum = fixed_at(borders, border);
    for i in 0..part.len() {
        let times = times_at(borders, border, i as u32);
        sum += product(times, end_of(part[i], late));
    }
    sum
}

/// The earliest tick at which a border may stand where another stands still at that place.
pub fn earliest_at(borders: &[Border], part: &[Within], still: u32, place: u32, border: u32) -> u32
    requires few { length part.now ≤ 16 }
    requires place { place ≤ 17000000 }
    ensures place { result ≡ earliest borders.now part.now still place border }
    ensures limited { result ≤ 34000000 }
{
    let behind = reach(borders, part, still, border, false);
    let ahead = reach(borders, part, border, still, true);
    (place + behind).saturating_sub(ahead)
}

/// The latest tick at which it may.
pub fn latest_at(borders: &[Border], part: &[Within], still: u32, place: u32, border: u32) -> u32
    requires few { length part.now ≤ 16 }
    requires place { place ≤ 17000000 }
    ensures place { result ≡ latest borders.now part.now still place border }
    ensures limited { result ≤ 34000000 }
{
    let behind = reach(borders, part, still, border, true);
    let ahead = reach(borders, part, border, still, false);
    (place + behind).saturating_sub(ahead)
}

// What a border's sum has that the other's has not, at the least lengths or at the greatest.
fn reach(borders: &[Border], part: &[Within], other: u32, border: u32, late: bool) -> u32
    requires { length part.now ≤ 16 }
    ensures sum { result ≡ reach borders.now part.now late other border }
    ensures limited { result ≤ 17000000 }
{
    let mut sum = fixed_at(borders, border);
    for i in 0..part.len() {
        let times = times_at(borders, border, i as u32);
        let more = times.saturating_sub(times_at(borders, other, i as u32));
        sum += product(more, end_of(part[i], late));
    }
    sum
}

// So many times a number of ticks.
fn product(times: u32, ticks: u32) -> u32
    requires times { times ≤ 255 }
    requires ticks { ticks ≤ 4000 }
    ensures product { result ≡ times * ticks }
    ensures limited { result ≤ 1020000 }
{
    times * ticks
}

// The greatest of a length, or its least.
fn end_of(length: Within, late: bool) -> u32
    ensures end { result ≡ ends_at late length }
    ensures limited { result ≤ 4000 }
{
    if late {
        length.greatest()
    } else {
        length.least()
    }
}

// The ticks of a border that are known.
fn fixed_at(borders: &[Border], border: u32) -> u32
    ensures fixed { result ≡ fixed_in borders.now border }
    ensures limited { result ≤ 65535 }
{
    match borders.get(border as usize) {
        Some(border) => border.fixed as u32,
        None => 0,
    }
}

// How many times a length stands in a border's sum.
fn times_at(borders: &[Border], border: u32, length: u32) -> u32
    ensures times { result ≡ times_in borders.now border length }
    ensures limited { result ≤ 255 }
{
    match borders.get(border as usize) {
        Some(border) => number_at(&border.times, length),
        None => 0,
    }
}

// A number of a list; 0 where there is none.
fn number_at(numbers: &[u8], place: u32) -> u32
    ensures number { result ≡ get_or numbers.now place 0 }
    ensures limited { result ≤ 255 }
{
    match numbers.get(place as usize) {
        Some(number) => *number as u32,
        None => 0,
    }
}
