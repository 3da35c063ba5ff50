//! Which candidates of a block fail an obligation.

ghost use Rattle.std.specs.Prelude.{◌≡◌, ◌<◌, ◌≤◌, ℕ, length};
ghost use Rattle.model_history.specs.Elements.{some_below};
ghost use Rattle.model_line.specs.Parameters.{terminal_count};
ghost use Rattle.model_logic.specs.Histories.{MeetsBy};
ghost use Rattle.run_signal.specs.Bits.{bit_on};
ghost use Rattle.run_changes.specs.changes.Until.{ReachTick};
ghost use Rattle.judge_verdict.specs.verdict.Candidates.{IsBlockRun, looked_at, trips_in, TellsFailing};
ghost use Rattle.judge_verdict.specs.verdict.Candidates.{TellFailing};

use model_line::{Kind, Line, Script};
use model_logic::laws::{
    each_choice_has_one_history, each_line_has_a_choice_inside, the_rule_is_tested,
};
use model_timing::{candidates_are_inside, timings_inside_are_choices_inside};
use run_changes::changes::Tracks;
use run_signal::{Lanes64, Signal, Track};

/// How many ticks an obligation of the script looks at: those up to the deadline, or all.
pub fn looked_ticks(line: &Line, script: &Script) -> u32
    requires deadline { script.now.deadline < line.now.horizon }
    ensures is { result ≡ looked_at line.now script.now }
    ensures inside { result ≤ line.now.horizon }
{
    match script.kind {
        Kind::Internal => script.deadline + 1,
        Kind::External => line.horizon,
    }
}

/// The lanes whose candidates fail the obligation of a terminal.
pub fn failing(line: &Line, script: &Script, tracks: &Tracks<Lanes64>, terminal: u32) -> Lanes64
    requires terminal { terminal < terminal_count line.now }
    requires deadline { script.now.deadline < line.now.horizon }
    requires trips { ReachTick (terminal_count line.now) (looked_at line.now script.now)
        tracks.now.trips.items }
    ensures { (first : ℕ) → IsBlockRun line.now script.now first tracks.now.trips.items →
        TellFailing line.now script.now first terminal result }
{
    each_choice_has_one_history();
    each_line_has_a_choice_inside();
    candidates_are_inside();
    timings_inside_are_choices_inside();
    failing_trips(line, script, &tracks.trips[terminal as usize])
}

// The lanes in which the trips of a terminal do not meet its obligation.
fn failing_trips(line: &Line, script: &Script, trip: &Track<Lanes64>) -> Lanes64
    requires deadline { script.now.deadline < line.now.horizon }
    requires reach { looked_at line.now script.now ≤ length trip.now.keys }
    ensures { (lane : ℕ) → lane < 64 → TellsFailing (bit_on result lane)
        (MeetsBy script.now.kind script.now.deadline line.now.horizon (trips_in trip.now lane)) }
{
    the_rule_is_tested();
    let lanes = tripped(trip, looked_ticks(line, script));
    match script.kind {
        Kind::Internal => lanes.not(),
        Kind::External => lanes,
    }
}

// The lanes in which the terminal trips at some of the first ticks.
fn tripped(trip: &Track<Lanes64>, ticks: u32) -> Lanes64
    requires { ticks ≤ length trip.now.keys }
    ensures { (lane : ℕ) → lane < 64 →
        bit_on result lane ≡ some_below (trips_in trip.now lane) ticks }
{
    let mut lanes = Lanes64::known(false);
    let mut t = 0;
    'stretches: while t < ticks {
        lanes = trip.at(t).or(lanes);
        t = trip.stays_until(t).min(ticks);
    }
    lanes
}
