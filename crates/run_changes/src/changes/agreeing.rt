//! In which lanes a run is as recorded.

ghost use Rattle.std.specs.Prelude.{◌≡◌, ◌↔◌, ℕ, ◌<◌, ◌≤◌, length, slice_get, IfOk, IsTrue, IsFalse};
ghost use Rattle.model_history.specs.Rails.{rails_at};
ghost use Rattle.run_signal.specs.{Lanes.in_lane, Levels.level_rails};
ghost use Rattle.run_signal.specs.Tracks.{StaysUntil};
ghost use Rattle.model_line.specs.{declared.script.Script.Script, Parameters.param_count};
ghost use Rattle.model_line.specs.Parameters.{terminal_count};
ghost use Rattle.model_logic.specs.Choice.{Choice};
ghost use Rattle.model_timing.specs.Timing.{ascend};
ghost use Rattle.run_changes.specs.changes.Agreeing.{AgreeIn, AllAgreeIn, IsOnlyHistory, LaneAgrees};
ghost use Rattle.run_changes.specs.changes.Agreeing.{own_pairs};
ghost use Rattle.run_step.specs.Runs.{CanRun, AreDelayed, IsPoint};
ghost use Rattle.run_changes.specs.changes.Tracks.{CanTake, IsKeptOf};
ghost use Rattle.run_step.specs.{LaneBox.lane_box, Ticks.AreSent};
ghost use Rattle.run_changes.specs.changes.PlayedTracks.{played};

use crate::changes::kept::Kept;
use crate::changes::start::fresh_kept;
use crate::changes::stretch::take_stretch;
use crate::changes::tracks::Tracks;
use model_history::laws::history_laws;
use model_line::{Line, Memory, Script};
use model_logic::laws::line_laws;
use model_timing::Step;
use net_gates::Compiled;
use net_gates::laws::gates_stand_for_their_trees;
use run_signal::{Carried, Level, Signal, Timed, Track};
use run_step::Run;
use std::alloc::Global;

/// Runs the net of a line over a script as `run_tracks` does, up to the first tick at which no lane
/// is as recorded any more, and answers in which lanes keys and trips are the recorded ones at every
/// tick up to the horizon.
pub fn agreeing_lanes<V: Timed + Carried>(
    alloc: Global,
    compiled: &Compiled<'_>,
    script: &Script,
    spans: &[V::Span],
    steps: &[Step<V::Span>],
    recorded: &Tracks<Level>,
) -> Result<V, Memory>
    requires spans { length spans.now ≡ param_count compiled.now.line.now }
    requires ascending { IsTrue (ascend steps.now) }
    requires delayed { AreDelayed V.signal compiled.now.line.now spans.now steps.now }
    requires keys { AreSent (terminal_count compiled.now.line.now) compiled.now.line.now.horizon
        compiled.now.line.now.horizon recorded.now.keys.items }
    requires trips { AreSent (terminal_count compiled.now.line.now) compiled.now.line.now.horizon
        compiled.now.line.now.horizon recorded.now.trips.items }
    // Where the lane's box holds one choice alone, the lane tells whether what is recorded is the
    // history at that choice.
    ensures agreeing { IfOk result (λ lanes. (lane : ℕ) (choice : Choice) → lane < V.signal.lanes →
        IsPoint compiled.now.line.now
        (lane_box V.signal.ends compiled.now.line.now spans.now steps.now lane) choice →
        (IsTrue (V.signal.rails lanes lane).must ↔
        IsOnlyHistory compiled.now.line.now script.now choice
        (played recorded.now.keys.items recorded.now.trips.items))) }
{
    line_laws();
    gates_stand_for_their_trees();
    let run = Run {
        compiled,
        spans,
        steps,
    };
    let mut kept = fresh_kept::<V>(alloc, &run, script)?;
    let lanes = take_agreeing::<V>(&run, &mut kept, recorded);
    Ok(lanes)
}

// Takes ticks up to the horizon as long as some lane is as recorded.
fn take_agreeing<V: Timed + Carried>(
    run: &Run<'_, V::Span>,
    kept: &mut Kept<V::Cells, V, V::Span>,
    recorded: &Tracks<Level>,
) -> V
    requires can { CanRun V.signal run.now }
    requires kept { CanTake V.signal run.now 0 kept.old }
    requires keys { AreSent (terminal_count run.now.compiled.now.line.now)
        run.now.compiled.now.line.now.horizon run.now.compiled.now.line.now.horizon
        recorded.now.keys.items }
    requires trips { AreSent (terminal_count run.now.compiled.now.line.now)
        run.now.compiled.now.line.now.horizon run.now.compiled.now.line.now.horizon
        recorded.now.trips.items }
    ensures { (script : Script) →
        IsKeptOf V.signal V.stands_for run.now script 0 kept.old →
        (lane : ℕ) → lane < V.signal.lanes → (IsTrue (V.signal.rails result lane).must ↔
        LaneAgrees V.signal.ends run.now script lane recorded.now.keys.items
        recorded.now.trips.items run.now.compiled.now.line.now.horizon) }
{
    history_laws();
    let mut lanes = V::known(true);
    let mut t = 0;
    while t < run.compiled.line.horizon {
        if !some_left(lanes) {
            return lanes;
        }
        let stays = take_stretch::<V>(run, kept, t);
        let end = t + stays;
        let keys = agreeing_tracks(
            run.compiled.line,
            kept.keys.as_slice(),
            recorded.keys.as_slice(),
            t,
            end,
        );
        let trips = agreeing_tracks(
            run.compiled.line,
            kept.trips.as_slice(),
            recorded.trips.as_slice(),
            t,
            end,
        );
        lanes = lanes.and(keys).and(trips);
        t = end;
    }
    lanes
}

// Whether the value must be on in some lane.
fn some_left<V: Signal>(lanes: V) -> bool
    ensures { IsFalse result → (lane : ℕ) → lane < V.signal.lanes →
        IsFalse (V.signal.rails lanes lane).must }
{
    for lane in 0..V::LANES {
        if lanes.must(lane) {
            return true;
        }
    }
    false
}

// The lanes in which each track is the recorded one from a tick on until another.
fn agreeing_tracks<V: Signal>(
    line: &Line,
    tracks: &[Track<V>],
    recorded: &[Track<Level>],
    from: u32,
    end: u32,
) -> V
    requires from { from < end }
    requires end { end ≤ line.now.horizon }
    requires tracks { AreSent (terminal_count line.now) line.now.horizon end tracks.now }
    requires recorded { AreSent (terminal_count line.now) line.now.horizon line.now.horizon
        recorded.now }
    ensures { (lane : ℕ) → lane < V.signal.lanes → (IsTrue (V.signal.rails result lane).must ↔
        AllAgreeIn (terminal_count line.now) (own_pairs V.signal.rails lane tracks.now) recorded.now
        from end) }
{
    let mut lanes = V::known(true);
    for k in 0..tracks.len() {
        lanes = lanes.and(agreeing_track(&tracks[k], &recorded[k], from, end));
    }
    lanes
}

// The lanes in which a track is the recorded one from a tick on until another.
fn agreeing_track<V: Signal>(track: &Track<V>, recorded: &Track<Level>, from: u32, end: u32) -> V
    requires from { from < end }
    requires track { end ≤ length track.now.keys }
    requires recorded { end ≤ length recorded.now.keys }
    ensures { (lane : ℕ) → lane < V.signal.lanes → (IsTrue (V.signal.rails result lane).must ↔
        AgreeIn (rails_at (in_lane V.signal.rails lane track.now.keys))
        (rails_at (in_lane (λ x _. level_rails x) 0 recorded.now.keys)) from end) }
{
    let mut lanes = V::known(true);
    let mut t = from;
    'stretches: while t < end {
        lanes = lanes.and(at_level(track.at(t), recorded.at(t)));
        t = both_stay(track, recorded, t, end);
    }
    lanes
}

// The lanes in which a value is the level.
fn at_level<V: Signal>(value: V, level: Level) -> V
    ensures { (lane : ℕ) → lane < V.signal.lanes → (IsTrue (V.signal.rails result lane).must ↔
        V.signal.rails value lane ≡ level_rails level) }
{
    match level {
        Level::On => value,
        Level::Off => value.not(),
    }
}

// Until when both tracks stay, and no longer than until a tick.
fn both_stay<V: Signal>(track: &Track<V>, recorded: &Track<Level>, t: u32, end: u32) -> u32
    requires from { t < end }
    requires track { end ≤ length track.now.keys }
    requires recorded { end ≤ length recorded.now.keys }
    ensures later { t < result }
    ensures limited { result ≤ end }
    ensures track { (lane : ℕ) → lane < V.signal.lanes →
        StaysUntil (rails_at (in_lane V.signal.rails lane track.now.keys)) t end result }
    ensures recorded { StaysUntil (rails_at (in_lane (λ x _. level_rails x) 0 recorded.now.keys)) t end result }
{
    if end - t == 1 {
        return end;
    }
    let stays = track.stays_until(t);
    let recorded_stays = recorded.stays_until(t);
    stays.min(recorded_stays).min(end)
}
