//! Times of a study in ticks.

ghost use Rattle.std.specs.Prelude.{◌≡◌, ◌<◌, ◌≤◌, ◌+◌, IfOk, ◌^◌};
ghost use Rattle.file_study.specs.times.Times.{IsEnd, IsReadable, IsSwept};
ghost use Rattle.file_study.specs.study.Rounding.{down, up, rounded};
ghost use Rattle.base_memory.specs.Gives.{Gives};
ghost use Rattle.file_study.specs.study.Moments.{limited, bounds_of, bounds_in, instant_at, instant_of};
ghost use Rattle.file_study.specs.study.Moments.{told, instant_in, swept_in, moments_in};
ghost use Rattle.file_study.specs.study.Moments.{lasts_in, lasts_of, lasts_values, moments_of};
ghost use Rattle.file_study.specs.declared.times.time.Time.TheVariants as time;
ghost use Rattle.file_study.specs.times.Times.{time_of};

use crate::study::units::Units;
use crate::times::{Fraction, Interval, Sweep, Time, read_time};
use base_memory::Stopped;
use file_document::{DocumentFault, Path};
use model_line::Bounds;
use std::alloc::Global;

// Rounded down.
fn down(tick_us: u32, time: Fraction) -> u128
    requires number { 0 < time.under }
    requires tick { 0 < tick_us }
    ensures { result ≡ down tick_us time }
{
    time.ticks_down(tick_us)
}

// Rounded up.
fn up(tick_us: u32, time: Fraction) -> u128
    requires number { 0 < time.under }
    requires tick { 0 < tick_us }
    ensures { result ≡ up tick_us time }
{
    time.ticks_up(tick_us)
}

fn rounded(upward: bool, tick_us: u32, time: Fraction) -> u128
    requires number { 0 < time.under }
    requires tick { 0 < tick_us }
    ensures { result ≡ rounded upward tick_us time }
{
    if upward {
        up(tick_us, time)
    } else {
        down(tick_us, time)
    }
}

// At most 4,000 ticks.
fn limited(path: Path, ticks: u128) -> Result<u32, DocumentFault>
    ensures is { result ≡ limited path ticks }
    ensures few { IfOk result (λ n. n ≤ 4000) }
{
    if ticks <= 4000 {
        Ok(ticks as u32)
    } else {
        Err(DocumentFault::Range(path))
    }
}

// What the text of a time says.
fn told(path: Path, hertz: Option<u32>, text: &[u8]) -> Result<Time, DocumentFault>
    ensures is { result ≡ told path (time_of hertz text.now) }
    ensures readable { IfOk result IsReadable }
{
    match read_time(text, hertz) {
        Ok(time) => Ok(time),
        Err(why) => Err(DocumentFault::BadTime(path, why)),
    }
}

// An interval in ticks, rounded outward.
fn bounds_in(tick_us: u32, path: Path, time: Time) -> Result<Bounds, DocumentFault>
    requires tick { 0 < tick_us }
    requires readable { IsReadable time }
    ensures { result ≡ bounds_in tick_us path time }
{
    match time {
        Time::Interval(ends) => {
            let least = limited(path, down(tick_us, ends.least))?;
            let greatest = limited(path, up(tick_us, ends.greatest))?;
            Ok(Bounds { least, greatest })
        }
        Time::Sweep(_) => Err(DocumentFault::Swept(path)),
    }
}

/// The interval of a text in ticks, rounded outward.
#[tactic(auto, unfolding(crate::specs::study::Moments::bounds_of))]
pub fn bounds(units: Units, path: Path, text: &[u8]) -> Result<Bounds, DocumentFault>
    requires { 0 < units.tick_us }
    ensures { result ≡ bounds_of units path text.now }
{
    let time = told(path, units.hertz, text)?;
    bounds_in(units.tick_us, path, time)
}

fn instant_at(upward: bool, tick_us: u32, path: Path, ends: Interval) -> Result<u32, DocumentFault>
    requires tick { 0 < tick_us }
    requires least { IsEnd ends.least }
    ensures is { result ≡ instant_at upward tick_us path ends }
    ensures few { IfOk result (λ n. n ≤ 4000) }
{
    if ends.is_instant() {
        limited(path, rounded(upward, tick_us, ends.least))
    } else {
        Err(DocumentFault::NoInstant(path))
    }
}

fn instant_in(upward: bool, tick_us: u32, path: Path, time: Time) -> Result<u32, DocumentFault>
    requires tick { 0 < tick_us }
    requires readable { IsReadable time }
    ensures is { result ≡ instant_in upward tick_us path time }
    ensures few { IfOk result (λ n. n ≤ 4000) }
{
    match time {
        Time::Interval(ends) => instant_at(upward, tick_us, path, ends),
        Time::Sweep(_) => Err(DocumentFault::Swept(path)),
    }
}

/// The instant of a text in ticks, rounded up or down.
#[tactic(auto, unfolding(crate::specs::study::Moments::instant_of))]
pub fn instant(upward: bool, units: Units, path: Path, text: &[u8]) -> Result<u32, DocumentFault>
    requires { 0 < units.tick_us }
    ensures is { result ≡ instant_of upward units path text.now }
    ensures few { IfOk result (λ n. n ≤ 4000) }
{
    let time = told(path, units.hertz, text)?;
    instant_in(upward, units.tick_us, path, time)
}

/// How long a stage lasts, in ticks: an instant or the values of a sweep, or where `between` the least and the
/// greatest of an interval.
#[derive(Drop)]
pub struct Lasting {
    pub ticks: Vec<u32>,
    pub between: bool,
}

/// How long a text says that a stage lasts. It may be an interval where `loose`.
#[tactic(auto, unfolding(crate::specs::study::Moments::lasts_of))]
pub fn lasts(
    alloc: Global,
    loose: bool,
    upward: bool,
    units: Units,
    path: Path,
    text: &[u8],
) -> Result<Lasting, Stopped<DocumentFault>>
    requires { 0 < units.tick_us }
    ensures { Gives lasts_values result (lasts_of loose upward units path text.now) }
{
    match told(path, units.hertz, text)? {
        Time::Interval(ends) => lasts_between(alloc, loose, upward, units.tick_us, path, ends),
        Time::Sweep(sweep) => {
            let ticks = swept(alloc, upward, units.tick_us, path, sweep)?;
            Ok(Lasting {
                ticks,
                between: false,
            })
        }
    }
}

// The same of an instant or an interval.
fn lasts_between(
    alloc: Global,
    loose: bool,
    upward: bool,
    tick_us: u32,
    path: Path,
    ends: Interval,
) -> Result<Lasting, Stopped<DocumentFault>>
    requires tick { 0 < tick_us }
    requires readable { IsReadable (time.Interval ends) }
    ensures { Gives lasts_values result (lasts_in loose upward tick_us path (time.Interval ends)) }
{
    if loose && !ends.is_instant() {
        let bounds = bounds_in(tick_us, path, Time::Interval(ends))?;
        return Ok(Lasting {
            ticks: vec![in alloc; bounds.least, bounds.greatest]?,
            between: true,
        });
    }
    let instant = instant_at(upward, tick_us, path, ends)?;
    Ok(Lasting {
        ticks: vec![in alloc; instant]?,
        between: false,
    })
}

/// The instant of a text, or the values of its sweep, in ticks.
#[tactic(auto, unfolding(crate::specs::study::Moments::moments_of))]
pub fn moments(
    alloc: Global,
    upward: bool,
    units: Units,
    path: Path,
    text: &[u8],
) -> Result<Vec<u32>, Stopped<DocumentFault>>
    requires { 0 < units.tick_us }
    ensures { Gives (λ v. v.items) result (moments_of upward units path text.now) }
{
    match told(path, units.hertz, text)? {
        Time::Interval(ends) => {
            let instant = instant_at(upward, units.tick_us, path, ends)?;
            Ok(vec![in alloc; instant]?)
        }
        Time::Sweep(sweep) => swept(alloc, upward, units.tick_us, path, sweep),
    }
}

// The values of a sweep.
#[tactic(auto, unfolding(crate::specs::study::Moments::swept_in))]
fn swept(
    alloc: Global,
    upward: bool,
    tick_us: u32,
    path: Path,
    sweep: Sweep,
) -> Result<Vec<u32>, Stopped<DocumentFault>>
    requires tick { 0 < tick_us }
    requires swept { IsSwept sweep }
    ensures { Gives (λ v. v.items) result (swept_in upward tick_us path sweep) }
{
    let count = sweep.count();
    if count > 1000 {
        return Err(Stopped::Fault(DocumentFault::TooMany(path)));
    }
    let mut values = Vec::new(alloc);
    for i in 0..count as u32 {
        let ticks = limited(path, rounded(upward, tick_us, sweep.value(i)))?;
        values.push(ticks)?;
    }
    Ok(values)
}
