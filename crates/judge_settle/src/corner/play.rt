//! Whether the history at a timing fails an obligation.

ghost use Rattle.std.specs.Prelude.{◌≡◌, ◌≤◌, ◌<◌, ◌↔◌, length, IfOk, IsTrue};
ghost use Rattle.model_logic.specs.Histories.{MeetsBy};
ghost use Rattle.model_timing.specs.Inside.{IsTimingInside};
ghost use Rattle.run_changes.specs.changes.PlayedTracks.{is_on};
ghost use Rattle.judge_settle.specs.corner.Obligations.{IsObligation, IsTold};
ghost use Rattle.judge_settle.specs.corner.Failing.{SomeTickIsOn};

use crate::corner::obligation::Obligation;
use model_line::laws::deadlines_are_below_the_horizon;
use model_line::{Kind, Memory, Script};
use model_logic::laws::each_choice_has_one_history;
use model_timing::Timing;
use run_changes::changes::run_tracks;
use run_signal::{Level, Signal, Track};
use run_step::laws::a_timing_is_one_choice;
use std::alloc::Global;

/// Whether the history at a timing inside the declared intervals fails the obligation.
pub fn fails(alloc: Global, of: &Obligation, timing: &Timing) -> Result<bool, Memory>
    requires of { IsObligation of.now }
    requires inside { IsTimingInside of.now.compiled.line.now timing.now }
    ensures { IfOk result (IsTold of.now timing.now) }
{
    a_timing_is_one_choice();
    each_choice_has_one_history();
    deadlines_are_below_the_horizon();
    let (values, steps) = (timing.values(), timing.steps());
    let tracks = run_tracks::<Level>(alloc, &of.compiled, of.script, values, steps)?;
    let trip = &tracks.trips[of.terminal as usize];
    Ok(!meets(trip, of.script, of.compiled.line.horizon))
}

// Whether a trip meets its obligation.
fn meets(trip: &Track<Level>, script: &Script, horizon: u32) -> bool
    requires horizon { length trip.now.keys ≡ horizon }
    requires deadline { script.now.deadline < horizon }
    ensures { IsTrue result ↔
        (MeetsBy script.now.kind script.now.deadline horizon (is_on trip.now)) }
{
    match script.kind {
        Kind::Internal => trips(trip, script.deadline + 1),
        Kind::External => !trips(trip, horizon),
    }
}

// Whether a terminal trips at some of the first ticks.
fn trips(trip: &Track<Level>, ticks: u32) -> bool
    requires { ticks ≤ length trip.now.keys }
    ensures { IsTrue result ↔ SomeTickIsOn (is_on trip.now) ticks }
{
    let mut t = 0;
    'stretches: while t < ticks {
        if trip.at(t).must(0) {
            return true;
        }
        t = trip.stays_until(t);
    }
    false
}
