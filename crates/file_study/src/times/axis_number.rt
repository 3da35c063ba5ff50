//! A number of ticks.

ghost use Rattle.std.specs.Prelude.{◌≡◌, ◌≤◌, ◌<◌, IfOk};
ghost use Rattle.file_study.specs.times.Times.{IsReadable};
ghost use Rattle.file_study.specs.times.Steps.{at_most_4000 as at_most_4000_of, counted_of, instant_of};
ghost use Rattle.file_study.specs.times.Steps.{have_units as units_in};
ghost use Rattle.file_study.specs.times.Steps.{is_letter as is_letter_of, is_on_grid as is_on_grid_of};
ghost use Rattle.file_study.specs.times.Steps.{number_of, ticks_of};

use crate::times::axis_fault::{AxisFault, Part};
use crate::times::fraction::Fraction;
use crate::times::read::read_time;
use crate::times::time::Time;
use base_text::store::number;

/// Whether a letter stands in the numbers of an axis: then each is a time with its unit.
pub fn have_units(numbers: &[u8]) -> bool
    ensures { result ≡ units_in numbers.now }
{
    numbers.iter().any(|byte| is_letter(*byte))
}

fn is_letter(byte: u8) -> bool
    ensures { result ≡ is_letter_of byte }
{
    b'a' <= byte && byte <= b'z'
}

/// The number of ticks that a text says: a time with its unit, or the number.
pub fn ticks(part: Part, tick_us: u32, units: bool, text: &[u8]) -> Result<u32, AxisFault>
    requires tick { 1 ≤ tick_us }
    ensures is { result ≡ number_of part tick_us units text.now }
    ensures few { IfOk result (λ n. n ≤ 4000) }
{
    if units {
        match read_time(text, None) {
            Ok(time) => instant(part, tick_us, time),
            Err(why) => Err(AxisFault::BadTime(part, why)),
        }
    } else {
        counted(part, number(text))
    }
}

fn counted(part: Part, n: Option<u32>) -> Result<u32, AxisFault>
    ensures is { result ≡ counted_of part n }
    ensures few { IfOk result (λ n. n ≤ 4000) }
{
    match n {
        Some(n) => at_most_4000(part, u128::from(n)),
        None => Err(AxisFault::NoTicks(part)),
    }
}

// One time, and no interval.
fn instant(part: Part, tick_us: u32, time: Time) -> Result<u32, AxisFault>
    requires tick { 1 ≤ tick_us }
    requires readable { IsReadable time }
    ensures is { result ≡ instant_of part tick_us time }
    ensures few { IfOk result (λ n. n ≤ 4000) }
{
    match time {
        Time::Sweep(_) => Err(AxisFault::NoInstant(part)),
        Time::Interval(ends) => {
            if ends.is_instant() {
                in_ticks(part, tick_us, ends.least)
            } else {
                Err(AxisFault::NoInstant(part))
            }
        }
    }
}

// How many ticks a time comes to.
fn in_ticks(part: Part, tick_us: u32, time: Fraction) -> Result<u32, AxisFault>
    requires tick { 1 ≤ tick_us }
    requires number { 1 ≤ time.under }
    ensures is { result ≡ ticks_of part tick_us time }
    ensures few { IfOk result (λ n. n ≤ 4000) }
{
    if is_on_grid(tick_us, time) {
        at_most_4000(part, time.over / time.under / u128::from(tick_us))
    } else {
        Err(AxisFault::OffGrid(part))
    }
}

fn is_on_grid(tick_us: u32, time: Fraction) -> bool
    requires tick { 1 ≤ tick_us }
    requires number { 1 ≤ time.under }
    ensures { result ≡ is_on_grid_of tick_us time }
{
    time.over % time.under == 0 && time.over / time.under % u128::from(tick_us) == 0
}

fn at_most_4000(part: Part, n: u128) -> Result<u32, AxisFault>
    ensures is { result ≡ at_most_4000_of part n }
    ensures few { IfOk result (λ n. n ≤ 4000) }
{
    if 4000 < n {
        Err(AxisFault::Beyond(part))
    } else {
        Ok(n as u32)
    }
}
