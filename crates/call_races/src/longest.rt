//! The script over which a trip may be set for the longest.

ghost use Rattle.std.specs.Prelude.{◌≡◌};
ghost use Rattle.call_races.specs.Trips.{longest_place as place_of_longest, longest_trip as trip_of};
ghost use Rattle.call_races.specs.Trips.{ticks_of as ticks_in};

use judge_races::Stretch;

/// Of scripts, the place of the first of those whose trips may be set for the longest, counted from 0.
pub fn longest_place(trips: &[Option<Stretch>]) -> usize
    ensures { result ≡ place_of_longest trips.now }
{
    let mut longest = 0;
    for i in 0..trips.len() {
        if ticks_of(trips[longest]) < ticks_of(trips[i]) {
            longest = i;
        }
    }
    longest
}

fn ticks_of(trip: Option<Stretch>) -> u32
    ensures { result ≡ ticks_in trip }
{
    match trip {
        Some(stretch) => stretch.ticks,
        None => 0,
    }
}

/// That trip.
pub fn longest_trip(trips: &[Option<Stretch>]) -> Option<Stretch>
    ensures { result ≡ trip_of trips.now }
{
    match trips.get(longest_place(trips)) {
        Some(trip) => *trip,
        None => None,
    }
}
