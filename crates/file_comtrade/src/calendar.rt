//! The instants of the Gregorian calendar.

ghost use Rattle.std.specs.Prelude.{◌≡◌, ◌<◌, ◌≤◌, ◌^◌, IfSome, IsTrue};
ghost use Rattle.file_comtrade.specs.Calendar.{is_leap, days_in_month, days_before_month, day_number};
ghost use Rattle.file_comtrade.specs.Calendar.{checked_day, full_year, day_of, day_in_order, clock_of};
ghost use Rattle.file_comtrade.specs.Calendar.{moment_of, is_day, seconds_of};

use crate::config::DateOrder;
use crate::number::{decimals, natural, plain};
use crate::text::cut;

/// The instant of a date and a time, in nanoseconds from the start of the year 0.
#[tactic(auto, unfolding(crate::specs::Calendar::moment_of))]
pub fn moment(order: DateOrder, date: &[u8], time: &[u8]) -> Option<u128>
    ensures value { result ≡ moment_of order date.now time.now }
    ensures early { IfSome result (λ n. n < 2 ^ 80) }
{
    let day = day_of(order, date)?;
    let nanos = clock(time)?;
    Some(u128::from(day) * 86_400_000_000_000 + u128::from(nanos))
}

/// The number of the day of a date.
#[tactic(auto, unfolding(crate::specs::Calendar::day_of))]
pub fn day_of(order: DateOrder, date: &[u8]) -> Option<u32>
    ensures { result ≡ day_of order date.now }
{
    let (first, rest) = cut(date, b'/')?;
    let (second, third) = cut(rest, b'/')?;
    let a = natural(first)?;
    let b = natural(second)?;
    let year = natural(third)?;
    day_in_order(order, a, b, year)
}

fn day_in_order(order: DateOrder, a: u32, b: u32, year: u32) -> Option<u32>
    ensures { result ≡ day_in_order order a b year }
{
    match order {
        DateOrder::DayFirst => checked_day(full_year(year), b, a),
        DateOrder::MonthFirst => checked_day(full_year(year), a, b),
    }
}

// Two digits stand for a year of 1980 to 2079.
fn full_year(year: u32) -> u32
    ensures { result ≡ full_year year }
{
    if year < 80 {
        2000 + year
    } else if year < 100 {
        1900 + year
    } else {
        year
    }
}

#[tactic(auto, unfolding(crate::specs::Calendar::clock_of))]
fn clock(time: &[u8]) -> Option<u64>
    ensures { result ≡ clock_of time.now }
{
    let (first, rest) = cut(time, b':')?;
    let (second, third) = cut(rest, b':')?;
    let hour = natural(first)?;
    let minute = natural(second)?;
    let nanos = seconds(third)?;
    if hour < 24 && minute < 60 && nanos < 60_000_000_000 {
        Some((u64::from(hour) * 60 + u64::from(minute)) * 60_000_000_000 + nanos)
    } else {
        None
    }
}

// Seconds with up to nine decimals, in nanoseconds.
#[tactic(auto, unfolding(crate::specs::Calendar::seconds_of))]
fn seconds(text: &[u8]) -> Option<u64>
    ensures { result ≡ seconds_of text.now }
{
    if decimals(text) <= 9 {
        plain(text, 9)
    } else {
        None
    }
}

/// The number of a day of the years 0 to 9999; 1 January of the year 0 has the number 0.
#[tactic(auto, unfolding(crate::specs::Calendar::checked_day))]
pub fn checked_day(year: u32, month: u32, day: u32) -> Option<u32>
    ensures { result ≡ checked_day year month day }
{
    if is_day(year, month, day) {
        Some(day_number(year, month, day))
    } else {
        None
    }
}

fn is_day(year: u32, month: u32, day: u32) -> bool
    ensures { result ≡ is_day year month day }
{
    year <= 9999 && 1 <= month && month <= 12 && 1 <= day && day <= days_in_month(year, month)
}

fn is_leap(year: u32) -> bool
    ensures { result ≡ is_leap year }
{
    year % 4 == 0 && (year % 100 != 0 || year % 400 == 0)
}

fn days_in_month(year: u32, month: u32) -> u32
    ensures { result ≡ days_in_month year month }
{
    if month == 2 {
        if is_leap(year) { 29 } else { 28 }
    } else if month == 4 || month == 6 || month == 9 || month == 11 {
        30
    } else {
        31
    }
}

fn days_before_month(month: u32) -> u32
    ensures value { result ≡ days_before_month month }
    ensures small { result ≤ 334 }
{
    match month {
        1 => 0,
        2 => 31,
        3 => 59,
        4 => 90,
        5 => 120,
        6 => 151,
        7 => 181,
        8 => 212,
        9 => 243,
        10 => 273,
        11 => 304,
        _ => 334,
    }
}

#[tactic(auto, unfolding(crate::specs::Calendar::day_number))]
fn day_number(year: u32, month: u32, day: u32) -> u32
    requires { IsTrue (is_day year month day) }
    ensures { result ≡ day_number year month day }
{
    let years = 365 * year + (year + 3) / 4 + (year + 399) / 400 - (year + 99) / 100;
    let leap = if is_leap(year) && 2 < month { 1 } else { 0 };
    years + days_before_month(month) + leap + (day - 1)
}
