//! The lines of the rates.

ghost use Rattle.std.specs.Prelude.{◌≡◌, ◌<◌, ◌^◌, IfOk, []};
ghost use Rattle.base_memory.specs.Gives.{Gives};
ghost use Rattle.file_comtrade.specs.Config.{rate_after, sampling_at, last_of, can_stand, rate_lines};
ghost use Rattle.file_comtrade.specs.Config.{sampling_values};
ghost use Rattle.file_comtrade.specs.{Steps.steps, Views.texts};

use crate::config::{Rate, Sampling};
use crate::config_lines::{line_at, rate_in};
use crate::fault::ConfigFault;
use base_memory::Stopped;
use std::alloc::Global;

/// So many rates, in the lines from this index on.
#[tactic(auto, unfolding(crate::specs::Config::sampling_at))]
pub fn sampling_at(
    alloc: Global,
    lines: &[&[u8]],
    at: usize,
    count: u32,
) -> Result<Sampling, Stopped<ConfigFault>>
    requires { at < 2 ^ 34 }
    ensures said { Gives sampling_values result (sampling_at (texts lines.now) at count) }
    ensures some { IfOk result (λ s. 0 < s.samples) }
{
    let rates = rates(alloc, lines, at, count, rate_lines(count))?;
    let samples = last_of(rates.as_slice());
    Ok(Sampling { rates, samples })
}

// The rates in so many lines from this index on.
fn rates(
    alloc: Global,
    lines: &[&[u8]],
    at: usize,
    count: u32,
    many: u32,
) -> Result<Vec<Rate>, Stopped<ConfigFault>>
    requires at { at < 2 ^ 34 }
    requires some { 0 < many }
    ensures said { Gives (λ v. v.items) result
        (steps (rate_after (texts lines.now) at count) [] many) }
    ensures some { IfOk result (λ v. 0 < last_of v.items) }
{
    let mut rates = Vec::new(alloc);
    for k in 0..many {
        rates = rate_after(alloc, lines, at, count, rates, k)?;
    }
    Ok(rates)
}

#[tactic(auto, unfolding(crate::specs::Config::rate_after))]
fn rate_after(
    alloc: Global,
    lines: &[&[u8]],
    at: usize,
    count: u32,
    rates: Vec<Rate>,
    k: u32,
) -> Result<Vec<Rate>, Stopped<ConfigFault>>
    requires { at < 2 ^ 34 }
    ensures said { Gives (λ v. v.items) result
        (rate_after (texts lines.now) at count rates.items k) }
    ensures some { IfOk result (λ v. 0 < last_of v.items) }
{
    let mut rates = rates;
    let fields = line_at(alloc, lines, at + k as usize)?;
    let Some(rate) = rate_in(fields.as_slice()) else {
        return Err(Stopped::Fault(ConfigFault::BadRate(at + k as usize + 1)));
    };
    if can_stand(count, rate.microhertz) && last_of(rates.as_slice()) < rate.last {
        rates.push(rate)?;
        Ok(rates)
    } else {
        Err(Stopped::Fault(ConfigFault::BadRate(at + k as usize + 1)))
    }
}

// Whether a rate can stand among so many.
fn can_stand(count: u32, rate: u64) -> bool
    ensures { result ≡ can_stand count rate }
{
    if count == 0 {
        rate == 0
    } else if count == 1 {
        true
    } else {
        0 < rate
    }
}

// The last sample so far.
fn last_of(rates: &[Rate]) -> u32
    ensures { result ≡ last_of rates.now }
{
    match rates.last() {
        Some(rate) => rate.last,
        None => 0,
    }
}

/// How many lines the rates take.
pub fn rate_lines(count: u32) -> u32
    ensures value { result ≡ rate_lines count }
    ensures some { 0 < result }
{
    if count == 0 { 1 } else { count }
}
