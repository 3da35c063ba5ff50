//! What is wrong with a fault whose times are not known.

ghost use Rattle.std.specs.Prelude.{◌≡◌, ◌≤◌, Some, None, IfErr, length, map, min, nat_le, OnOk};
ghost use Rattle.std.specs.List.{list_all};
ghost use Rattle.file_study.specs.study.Faults.{fault_values, stage_values};
ghost use Rattle.file_borders.specs.Drawn.{borders_of, later_in as later_of, part_of};
ghost use Rattle.file_borders.specs.Loose.{comes_by as comes_by_of, comes_in_time as comes_in_time_of};
ghost use Rattle.file_borders.specs.Loose.{has_one_time as has_one_time_of, is_unswept as is_unswept_of};
ghost use Rattle.file_borders.specs.Loose.{refusal_of};

use crate::drawn::first_of;
use crate::fault::BordersFault;
use file_study::study::{Shown, Stage, SweptFault};
use file_study::sweeps::horizon_of;
use model_line::Line;

/// Passes where nothing is wrong with a fault.
pub(crate) fn check(line: &Line, fault: &SweptFault) -> Result<(), BordersFault>
    ensures accepted { OnOk result (refusal_of line.now (fault_values fault.now) ≡ None) }
    ensures refused { IfErr result (λ why. refusal_of line.now (fault_values fault.now) ≡ Some why) }
{
    if !is_unswept(fault) {
        return Err(BordersFault::Swept);
    }
    if !has_few_times(&fault.stages, 3) {
        return Err(BordersFault::TooManyTimes);
    }
    let horizon = horizon_of(fault);
    if horizon > line.horizon as u128 {
        return Err(BordersFault::Horizon(horizon, line.tick_us));
    }
    if !all_come_in_time(&fault.stages) {
        return Err(BordersFault::ComesLate);
    }
    if !has_few_borders(&fault.stages, 99) {
        return Err(BordersFault::TooManyBorders);
    }
    Ok(())
}

// Whether no time of a fault is swept.
fn is_unswept(fault: &SweptFault) -> bool
    ensures { result ≡ is_unswept_of (fault_values fault.now) }
{
    fault.start.len() == 1 && fault.trip_within.len() == 1 && all_have_one_time(&fault.stages)
}

fn all_have_one_time(stages: &[Stage]) -> bool
    ensures { result ≡ list_all has_one_time_of (map stage_values stages.now) }
{
    for stage in stages {
        if !has_one_time(stage) {
            return false;
        }
    }
    true
}

// Whether a stage lasts for one time, or for an interval.
fn has_one_time(stage: &Stage) -> bool
    ensures { result ≡ has_one_time_of (stage_values stage.now) }
{
    if stage.between {
        stage.lasts.len() == 2 && stage.lasts[0] <= stage.lasts[1] && stage.lasts[1] <= 4000
    } else {
        stage.lasts.len() == 1
    }
}

// Whether at most so many stages last for intervals.
fn has_few_times(stages: &[Stage], most: u32) -> bool
    ensures { result ≡ nat_le (length (part_of (map stage_values stages.now))) most }
{
    let mut left = most;
    for stage in stages {
        if stage.between {
            if left == 0 {
                return false;
            }
            left -= 1;
        }
    }
    true
}

fn all_come_in_time(stages: &[Stage]) -> bool
    ensures { result ≡ list_all comes_in_time_of (map stage_values stages.now) }
{
    for stage in stages {
        if !comes_in_time(stage) {
            return false;
        }
    }
    true
}

// Whether all that a stage shows comes before it has ended.
fn comes_in_time(stage: &Stage) -> bool
    ensures { result ≡ comes_in_time_of (stage_values stage.now) }
{
    let least = first_of(&stage.lasts);
    stage.shows.iter().all(|shown| comes_by(least, shown))
}

fn comes_by(least: u32, shown: &Shown) -> bool
    ensures { result ≡ comes_by_of least shown.now }
{
    shown.after <= least
}

// Whether stages have at most so many borders, beside the begin of the first.
fn has_few_borders(stages: &[Stage], most: u32) -> bool
    requires { most ≤ 99 }
    ensures { result ≡ nat_le (borders_of (map stage_values stages.now)) most }
{
    let mut left = most;
    for stage in stages {
        let own = later_in(&stage.shows, left);
        if own >= left {
            return false;
        }
        left -= own + 1;
    }
    true
}

// How many elements come later than their stage begins; so many are enough.
fn later_in(shows: &[Shown], enough: u32) -> u32
    requires { enough ≤ 99 }
    ensures { result ≡ min (later_of shows.now) enough }
{
    let mut later = 0;
    for shown in shows {
        if later == enough {
            return enough;
        }
        if shown.after != 0 {
            later += 1;
        }
    }
    later
}
