//! The sample that holds at each tick.

ghost use Rattle.std.specs.Prelude.{◌≡◌, ◌<◌, ◌≤◌, ◌^◌, IfOk, MatchResult, IsTrue, ◌↔◌};
ghost use Rattle.std.specs.Prelude.{length, map, slice_index};
ghost use Rattle.base_memory.specs.Gives.{OfFault};
ghost use Rattle.file_comtrade.specs.Ticks.{IsHolding, IsCovered, AreAtTicks, IsFirstTick, IsLastTick};
ghost use Rattle.file_comtrade.specs.Ticks.{IsTickFault};

use crate::data_reader::Sample;
use base_memory::{Memory, Stopped};
use std::alloc::{AllocError, Global};

/// The ticks of a play, in the recorder's clock.
#[derive(Clone, Copy)]
pub struct Ticks {
    /// The instant of tick 0, in nanoseconds from the start of the year 0.
    pub start: u128,
    /// The length of a tick, in nanoseconds.
    pub tick: u64,
    pub count: u32,
}

/// Not each tick has a sample: those that have are from one to another, if any has.
#[derive(Clone, Copy, Drop)]
pub struct TickFault {
    /// The first tick that is not before the first sample.
    pub from: u128,
    /// The last tick that is not after the last sample, if there is one.
    pub to: Option<u128>,
}

/// The times of samples.
pub fn times_of(alloc: Global, samples: &[Sample]) -> Result<Vec<u64>, AllocError>
    ensures { IfOk result (λ v. v.items ≡ map (λ s. s.time) samples.now) }
{
    samples.iter().map(|sample| sample.time).collect(alloc)
}

/// The sample that holds at each tick, or from which tick to which there are samples.
pub fn samples_at(
    alloc: Global,
    origin: u128,
    times: &[u64],
    ticks: Ticks,
) -> Result<Vec<usize>, Stopped<TickFault>>
    requires early { origin < 2 ^ 100 }
    requires start { ticks.start < 2 ^ 100 }
    requires some { 0 < length times.now }
    requires ticks { 0 < ticks.count }
    requires tick { 0 < ticks.tick }
    ensures { MatchResult result (λ v. AreAtTicks origin times.now ticks v.items)
        (OfFault (IsTickFault origin times.now ticks)) }
{
    if is_covered(origin, times, ticks) {
        Ok(held_at(alloc, origin, times, ticks)?)
    } else {
        Err(Stopped::Fault(TickFault {
            from: first_tick(origin, times, ticks),
            to: last_tick(origin, times, ticks),
        }))
    }
}

// The sample that holds at each tick, where there is one for each.
fn held_at(alloc: Global, origin: u128, times: &[u64], ticks: Ticks) -> Result<Vec<usize>, Memory>
    requires start { ticks.start < 2 ^ 100 }
    requires some { 0 < length times.now }
    requires covered { IsCovered origin times.now ticks }
    ensures { IfOk result (λ v. AreAtTicks origin times.now ticks v.items) }
{
    let mut at = Vec::new(alloc);
    for t in 0..ticks.count {
        let instant = ticks.start + u128::from(t) * u128::from(ticks.tick);
        at.push(holding(times, instant - origin))?;
    }
    Ok(at)
}

fn is_covered(origin: u128, times: &[u64], ticks: Ticks) -> bool
    requires early { origin < 2 ^ 100 }
    requires start { ticks.start < 2 ^ 100 }
    requires some { 0 < length times.now }
    requires ticks { 0 < ticks.count }
    ensures { IsTrue result ↔ IsCovered origin times.now ticks }
{
    let first = origin + u128::from(times[0]);
    let last = origin + u128::from(times[times.len() - 1]);
    let ends = ticks.start + u128::from(ticks.count - 1) * u128::from(ticks.tick);
    first <= ticks.start && ends <= last
}

fn first_tick(origin: u128, times: &[u64], ticks: Ticks) -> u128
    requires early { origin < 2 ^ 100 }
    requires some { 0 < length times.now }
    requires tick { 0 < ticks.tick }
    ensures { IsFirstTick origin times.now ticks result }
{
    let first = origin + u128::from(times[0]);
    let tick = u128::from(ticks.tick);
    if first <= ticks.start {
        0
    } else {
        (first - ticks.start + (tick - 1)) / tick
    }
}

fn last_tick(origin: u128, times: &[u64], ticks: Ticks) -> Option<u128>
    requires early { origin < 2 ^ 100 }
    requires some { 0 < length times.now }
    requires tick { 0 < ticks.tick }
    ensures { IsLastTick origin times.now ticks result }
{
    let last = origin + u128::from(times[times.len() - 1]);
    if last < ticks.start {
        None
    } else {
        Some((last - ticks.start) / u128::from(ticks.tick))
    }
}

/// The last sample that is not after an instant.
fn holding(times: &[u64], instant: u128) -> usize
    requires some { 0 < length times.now }
    requires begun { slice_index times.now 0 ≤ instant }
    ensures { IsHolding times.now instant result }
{
    let mut low = 0;
    let mut high = times.len();
    while high - low > 1 {
        let middle = low + (high - low) / 2;
        if u128::from(times[middle]) <= instant {
            low = middle;
        } else {
            high = middle;
        }
    }
    low
}
