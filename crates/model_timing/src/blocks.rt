//! Blocks of 64 candidates, one in each lane.

ghost use Rattle.std.specs.Prelude.{◌≡◌, ◌+◌, ◌<◌, ◌≤◌, ◌==◌, ℕ, slice_index, nat_le, IfOk};
ghost use Rattle.std.specs.Prelude.{if◌then◌else◌};
ghost use Rattle.model_line.specs.Parameters.{param_count, declared_ends};
ghost use Rattle.model_timing.specs.Candidates.{candidate_count as count_of};
ghost use Rattle.model_timing.specs.Candidates.{free_before, free_count as count_of_free};
ghost use Rattle.model_timing.specs.Blocks.{candidate_in as number_in, IsBlockSpan, AreBlockSpans};

use crate::candidates::{candidate_count, free_count};
use model_line::laws::parameters_are_numbered;
use model_line::{Line, Memory};
use run_signal::{Lanes64, Signal, Tick, Ticks64};
use std::alloc::Global;

/// The number of the candidate in a lane of the block that begins with candidate `first`. The lanes
/// past the last candidate repeat it.
pub fn candidate_in(line: &Line, first: u32, lane: u32) -> u32
    requires first { first < count_of line.now }
    requires lane { lane < 64 }
    ensures number { result ≡ number_in line.now first lane }
    ensures exists { result < count_of line.now }
{
    parameters_are_numbered();
    let count = candidate_count(line);
    if first + lane < count {
        first + lane
    } else {
        count - 1
    }
}

/// For each parameter its number in each lane of the block that begins with candidate `first`.
pub fn candidate_spans(alloc: Global, line: &Line, first: u32) -> Result<Vec<Ticks64>, Memory>
    requires { first < count_of line.now }
    ensures { IfOk result (λ spans. AreBlockSpans line.now first (param_count line.now) spans.items) }
{
    parameters_are_numbered();
    let free = free_count(line.params.as_slice());
    let mut before = 0;
    let mut spans = Vec::new(alloc);
    for param in 0..line.param_count() {
        spans.push(block_span(line, first, param, free, before))?;
        before = free_through(line, param, before);
    }
    Ok(spans)
}

// A parameter's number in each lane of a block, where so many parameters are free, and so many of
// those before it.
fn block_span(line: &Line, first: u32, param: u32, free: u32, before: u32) -> Ticks64
    requires first { first < count_of line.now }
    requires param { param < param_count line.now }
    requires free { free ≡ count_of_free line.now }
    requires before { before ≡ free_before line.now param }
    requires few { free ≤ 100 }
    requires fewer { before ≤ 100 }
    ensures { IsBlockSpan line.now first param result }
{
    if line.least(param) == line.greatest(param) {
        return Lanes64::sure(line.least(param));
    }
    let least = Tick::new(line.least(param));
    let greatest = Tick::new(line.greatest(param));
    // Candidate 0 and those from 2 to 1 + free have the least, 1 and those after them the greatest.
    let mut ticks = [least; 64];
    set_lane(&mut ticks, first, 1, greatest);
    set_lanes_from(&mut ticks, first, 2 + free, greatest);
    // Of the former one has the greatest, of the latter one the least. The last is repeated.
    set_lane(&mut ticks, first, 2 + before, greatest);
    if before + 1 == free {
        set_lanes_from(&mut ticks, first, 1 + 2 * free, least);
    } else {
        set_lane(&mut ticks, first, 2 + before + free, least);
    }
    Ticks64::new(ticks)
}

// Gives a number to the lane of a candidate, where the block has it.
fn set_lane(ticks: &mut [Tick; 64], first: u32, index: u32, value: Tick)
    ensures { (lane : ℕ) → lane < 64 → slice_index ticks.new lane
        ≡ (if first + lane == index then value else slice_index ticks.old lane) }
{
    if first <= index && index - first < 64 {
        ticks[(index - first) as usize] = value;
    }
}

// Gives a number to the lanes of a candidate and those after it.
fn set_lanes_from(ticks: &mut [Tick; 64], first: u32, index: u32, value: Tick)
    ensures { (lane : ℕ) → lane < 64 → slice_index ticks.new lane
        ≡ (if nat_le index (first + lane) then value else slice_index ticks.old lane) }
{
    let from = index.saturating_sub(first).min(64) as usize;
    for lane in from..64 {
        ticks[lane] = value;
    }
}

// How many parameters are free among those before a parameter and itself.
fn free_through(line: &Line, param: u32, before: u32) -> u32
    requires param { param < param_count line.now }
    requires before { before ≡ free_before line.now param }
    ensures { result ≡ free_before line.now (param + 1) }
{
    parameters_are_numbered();
    let bounds = &line.params[param as usize];
    if bounds.least < bounds.greatest {
        before + 1
    } else {
        before
    }
}
