//! The times of samples.

ghost use Rattle.std.specs.Prelude.{◌≡◌, ◌<◌};
ghost use Rattle.file_comtrade.specs.Config.{values_of};
ghost use Rattle.file_comtrade.specs.Times.{periods_after, rated, stamped, time_of, below_2_64};
ghost use Rattle.file_comtrade.specs.Times.{has_time, is_stamped, per_nanosecond};

use crate::config::{Config, Rate, StampUnit};

fn below_2_64(n: u128) -> Option<u64>
    ensures { result ≡ below_2_64 n }
{
    if n < 18_446_744_073_709_551_616 {
        Some(n as u64)
    } else {
        None
    }
}

// So many periods of a rate after an instant, rounded down.
#[tactic(auto, unfolding(crate::specs::Times::periods_after))]
fn periods_after(rate: Rate, base: u64, count: u32) -> Option<u64>
    ensures { result ≡ periods_after rate base count }
{
    if rate.microhertz == 0 {
        return None;
    }
    let time = u128::from(count) * 1_000_000_000_000_000 / u128::from(rate.microhertz);
    below_2_64(u128::from(base) + time)
}

// A sample by its number, after that one which came before these rates.
fn rated(rates: &[Rate], number: u32) -> Option<u64>
    ensures { result ≡ rated rates.now 0 1 number }
{
    let mut base: u64 = 0;
    let mut before: u32 = 1;
    for rate in rates {
        if number <= rate.last {
            return periods_after(*rate, base, number.saturating_sub(before));
        }
        base = periods_after(*rate, base, rate.last.saturating_sub(before))?;
        before = rate.last;
    }
    None
}

// How many billionths of what a stamp counts make a nanosecond.
fn per_nanosecond(unit: StampUnit) -> u128
    ensures value { result ≡ per_nanosecond unit }
    ensures some { 0 < result }
{
    match unit {
        StampUnit::Microsecond => 1_000_000,
        StampUnit::Nanosecond => 1_000_000_000,
    }
}

fn stamped(unit: StampUnit, factor: u64, stamp: Option<u64>) -> Option<u64>
    ensures { result ≡ stamped unit factor stamp }
{
    let stamp = stamp?;
    let billionths = u128::from(stamp) * u128::from(factor);
    below_2_64(billionths / per_nanosecond(unit))
}

// Whether each sample has its stamp, and no rate.
fn is_stamped(rates: &[Rate]) -> bool
    ensures { result ≡ is_stamped rates.now }
{
    match rates {
        [] => true,
        [rate, ..] => rate.microhertz == 0,
    }
}

/// Whether a sample has a time: by the rates, or by its stamp.
pub fn has_time(config: &Config, stamp: Option<u64>) -> bool
    ensures { result ≡ has_time (values_of config.now) stamp }
{
    match stamp {
        Some(_) => true,
        None => !is_stamped(config.sampling.rates.as_slice()),
    }
}

/// The time of a sample, in nanoseconds after the first: by the rates, or by its stamp.
pub fn time_of(config: &Config, number: u32, stamp: Option<u64>) -> Option<u64>
    ensures { result ≡ time_of (values_of config.now) number stamp }
{
    let rates = config.sampling.rates.as_slice();
    if is_stamped(rates) {
        stamped(config.unit, config.factor, stamp)
    } else {
        rated(rates, number)
    }
}
