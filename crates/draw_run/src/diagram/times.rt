//! The first ticks of trips, and the margin to the deadline.

ghost use Rattle.std.specs.Prelude.{◌≡◌, ◌<◌, Bool, IfOk};
ghost use Rattle.model_history.specs.{Rails.Rails, Recorded.first_ticks};
ghost use Rattle.model_line.specs.Parameters.{terminal_count};
ghost use Rattle.run_signal.specs.declared.tern.Tern.{Tern};
ghost use Rattle.draw_run.specs.diagram.Times.{trip_times_of};
ghost use Rattle.run_waves.specs.{waves.FirstTick.first_on, waves.Waves.Tells};

use crate::diagram::shown::Shown;
use judge_report::margin;
use model_line::{Line, Memory, Script};
use run_signal::{Signal, Tern};
use run_waves::waves::the_first_tick_is_the_least;
use std::alloc::Global;

/// The first tick at which a terminal may trip, the first at which it must, and how many ticks
/// lie between that and the deadline of an internal fault; below 0 where the trip is late. In one
/// play it trips where it may.
#[derive(Clone, Copy)]
pub struct TripTimes {
    pub first_may: Option<u32>,
    pub first_must: Option<u32>,
    pub margin: Option<i64>,
}

/// The times of each terminal's trip, in line order.
pub fn trips<H: Shown>(
    alloc: Global,
    line: &Line,
    script: &Script,
    shown: &H,
) -> Result<Vec<TripTimes>, Memory>
    requires terminals { H.terminals shown.now ≡ terminal_count line.now }
    requires ticks { H.ticks shown.now ≡ line.now.horizon }
    ensures { IfOk result (λ trips. trips.items
        ≡ first_ticks
        (λ k. trip_times_of script.now line.now.horizon ((H.pairs shown.now).trip k))
        (terminal_count line.now)) }
{
    let mut all = Vec::new(alloc);
    for k in 0..line.terminals.len() {
        all.push(trip_times(line, script, shown, k as u32))?;
    }
    Ok(all)
}

fn trip_times<H: Shown>(line: &Line, script: &Script, shown: &H, k: u32) -> TripTimes
    requires terminal { k < H.terminals shown.now }
    requires ticks { H.ticks shown.now ≡ line.now.horizon }
    ensures { result
        ≡ trip_times_of script.now line.now.horizon ((H.pairs shown.now).trip k) }
{
    let first_must = first_trip(shown, k, line.horizon, |value| value.must(0));
    TripTimes {
        first_may: first_trip(shown, k, line.horizon, |value| value.may(0)),
        first_must,
        margin: margin(script.kind, script.deadline, first_must),
    }
}

// The first tick at which the value of a terminal's trip is one of these.
fn first_trip<H: Shown, F>(shown: &H, k: u32, horizon: u32, is: F) -> Option<u32>
where
    F: Fn(Tern) -> bool,
    requires terminal { k < H.terminals shown.now }
    requires ticks { H.ticks shown.now ≡ horizon }
    requires callable { (value : Tern) → F.pre is value }
    ensures { (rail : Rails → Bool) → Tells (F.post is) rail →
        result ≡ first_on (λ t. rail ((H.pairs shown.now).trip k t)) horizon }
{
    the_first_tick_is_the_least();
    for t in 0..horizon {
        if is(shown.trip_at(k, t)) {
            return Some(t);
        }
    }
    None
}
