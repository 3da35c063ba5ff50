//! Whether the trip of a play meets an obligation.

ghost use Rattle.std.specs.Prelude.{◌≡◌, ◌<◌, ◌≤◌, length, MatchOption};
ghost use Rattle.model_logic.specs.Histories.{MeetsBy};
ghost use Rattle.run_changes.specs.changes.PlayedTracks.{is_on};
ghost use Rattle.run_waves.specs.waves.FirstTick.{IsFirstOn};
ghost use Rattle.cert_claims.specs.check.Refutations.{IsMetAt};

use model_line::{Kind, Script};
use run_signal::{Level, Signal, Track};

/// The tick that shows that the obligation of a script is met by this trip, over so many ticks, if it
/// is.
pub fn met_tick(trip: &Track<Level>, script: &Script, horizon: u32) -> Option<u32>
    requires horizon { length trip.now.keys ≡ horizon }
    requires deadline { script.now.deadline < horizon }
    ensures { MatchOption result
        (¬ (MeetsBy script.now.kind script.now.deadline horizon (is_on trip.now)))
        (λ t. IsMetAt script.now.kind script.now.deadline horizon (is_on trip.now) t) }
{
    match script.kind {
        Kind::Internal => first_trip(trip, script.deadline + 1),
        Kind::External => match first_trip(trip, horizon) {
            Some(_) => None,
            None => Some(horizon),
        },
    }
}

// The first of so many ticks at which the trip is on.
fn first_trip(trip: &Track<Level>, ticks: u32) -> Option<u32>
    requires { ticks ≤ length trip.now.keys }
    ensures { IsFirstOn (is_on trip.now) 0 ticks result }
{
    let mut t = 0;
    'stretches: while t < ticks {
        if trip.at(t).must(0) {
            return Some(t);
        }
        t = trip.stays_until(t);
    }
    None
}
