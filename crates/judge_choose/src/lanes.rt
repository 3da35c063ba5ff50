//! What lanes tell of a candidate.

ghost use Rattle.std.specs.Prelude.{◌≡◌, ◌<◌, ◌+◌, ℕ, Bool, IfOk, IsTrue, Some, Option, List, MatchOption, length, slice_get};
ghost use Rattle.run_signal.specs.Bits.{bit_on};
ghost use Rattle.model_line.specs.{declared.line.Line.Line, declared.script.Script.Script};
ghost use Rattle.judge_choose.specs.{Positions.IsCover, Ranges.IsShown};
ghost use Rattle.judge_choose.specs.Lanes.{AreInLane, AreKeptBefore, TellOf, TellsFirstOff, bound_of, kept_and_off};

use crate::cover::Cover;
use crate::range::{Bound, Range};
use model_line::Memory;
use run_signal::{Lanes64, Signal};
use std::alloc::Global;

/// The range of a candidate by the four lanes from one on.
pub fn shown(alloc: Global, candidate: &Cover, told: &[Lanes64], lane: u32) -> Result<Range, Memory>
    requires { lane + 3 < 64 }
    ensures kept { IfOk result (λ range. AreInLane told.now lane range.kept.items) }
    ensures shown { IfOk result (λ range. (line : Line) (scripts : List Script) →
        IsCover line candidate.now → TellOf line scripts candidate.now told.now lane →
        IsShown line scripts candidate.now.setting.now range) }
{
    let kept = in_lane(alloc, told, lane)?;
    let below = first_off(&kept, told, lane + 1);
    let above = first_off(&kept, told, lane + 2);
    Ok(Range {
        first: candidate.first,
        last: candidate.last,
        kept,
        below: bound(candidate.first == 0, below),
        above: bound(candidate.last == candidate.setting.last, above),
    })
}

fn bound(limit: bool, lost: Option<usize>) -> Bound
    ensures { result ≡ bound_of limit lost }
{
    if limit {
        return Bound::Limit;
    }
    match lost {
        Some(place) => Bound::Lost(place),
        None => Bound::Open,
    }
}

// The bit of each obligation in a lane.
fn in_lane(alloc: Global, told: &[Lanes64], lane: u32) -> Result<Vec<bool>, Memory>
    requires { lane < 64 }
    ensures { IfOk result (λ kept. AreInLane told.now lane kept.items) }
{
    let mut kept = Vec::with_capacity(alloc, told.len())?;
    for place in 0..told.len() {
        kept.push(is_on(told, place, lane))?;
    }
    Ok(kept)
}

fn is_on(told: &[Lanes64], place: usize, lane: u32) -> bool
    requires place { place < length told.now }
    requires lane { lane < 64 }
    ensures { (bits : ℕ) → slice_get told.now place ≡ Some bits → result ≡ bit_on bits lane }
{
    told[place].must(lane)
}

// The first that is kept and off in a lane.
fn first_off(kept: &[bool], told: &[Lanes64], lane: u32) -> Option<usize>
    requires count { length kept.now ≡ length told.now }
    requires lane { lane < 64 }
    ensures { TellsFirstOff kept.now told.now lane result }
{
    for place in 0..kept.len() {
        if is_off(kept, told, place, lane) {
            return Some(place);
        }
    }
    None
}

// Whether one is kept and off in a lane.
fn is_off(kept: &[bool], told: &[Lanes64], place: usize, lane: u32) -> bool
    requires count { length kept.now ≡ length told.now }
    requires place { place < length kept.now }
    requires lane { lane < 64 }
    ensures { (b : Bool) (bits : ℕ) → slice_get kept.now place ≡ Some b →
        slice_get told.now place ≡ Some bits → result ≡ kept_and_off b (bit_on bits lane) }
{
    kept[place] && !is_on(told, place, lane)
}

/// Whether all that are on in a lane are kept.
pub fn are_kept(kept: &[bool], told: &[Lanes64], lane: u32) -> bool
    requires count { length kept.now ≡ length told.now }
    requires lane { lane < 64 }
    ensures { IsTrue result → AreKeptBefore kept.now told.now lane (length kept.now) }
{
    for place in 0..kept.len() {
        if is_given_up(kept, told, place, lane) {
            return false;
        }
    }
    true
}

// Whether one is on in a lane and not kept.
fn is_given_up(kept: &[bool], told: &[Lanes64], place: usize, lane: u32) -> bool
    requires count { length kept.now ≡ length told.now }
    requires place { place < length kept.now }
    requires lane { lane < 64 }
    ensures { (b : Bool) (bits : ℕ) → slice_get kept.now place ≡ Some b →
        slice_get told.now place ≡ Some bits → result ≡ kept_and_off (bit_on bits lane) b }
{
    !kept[place] && is_on(told, place, lane)
}
