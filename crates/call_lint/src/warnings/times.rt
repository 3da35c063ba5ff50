//! Warnings of the times of a line.

ghost use Rattle.std.specs.Prelude.{◌≡◌, ◌++◌, ◌<◌, OnOk, slice_get};
ghost use Rattle.std.specs.List.{All};
ghost use Rattle.file_study.specs.times.Times.{IsEnd};
ghost use Rattle.model_line.specs.Parameters.{param_count};
ghost use Rattle.call_lint.specs.warnings.TimeTests.{AreEnds, is_below_tick, is_off, is_whole, is_rounded};
ghost use Rattle.call_lint.specs.warnings.TimeTests.{is_fixed_delay};
ghost use Rattle.call_lint.specs.warnings.Listed.{told_below};
ghost use Rattle.call_lint.specs.warnings.Warnings.{exact_warnings, declared_warnings, time_warnings};

use crate::warnings::listed::push_if;
use crate::warnings::warning::Warning;
use file_study::times::{Fraction, Interval};
use model_line::{Line, Memory};

/// Adds the warnings of the times, parameter by parameter.
pub fn push_times(list: &mut Vec<Warning>, line: &Line, exact: &[Interval]) -> Result<(), Memory>
    requires { All AreEnds exact.now }
    ensures { OnOk result (list.new.items
        ≡ list.old.items ++ told_below (param_count line.now) (time_warnings line.now exact.now)) }
{
    for i in 0..line.param_count() {
        push_time(list, line, exact, i)?;
    }
    Ok(())
}

#[tactic(auto, unfolding(crate::specs::warnings::Warnings::time_warnings))]
fn push_time(list: &mut Vec<Warning>, line: &Line, exact: &[Interval], i: u32) -> Result<(), Memory>
    requires ends { All AreEnds exact.now }
    requires exists { i < param_count line.now }
    ensures { OnOk result (list.new.items
        ≡ list.old.items ++ time_warnings line.now exact.now i) }
{
    push_exact_at(list, line.tick_us, exact, i)?;
    push_declared(list, line, i)
}

fn push_exact_at(
    list: &mut Vec<Warning>,
    tick_us: u32,
    exact: &[Interval],
    i: u32,
) -> Result<(), Memory>
    requires tick { (0 < tick_us) × (tick_us < 1000001) }
    requires ends { All AreEnds exact.now }
    ensures { OnOk result (list.new.items
        ≡ list.old.items ++ exact_warnings tick_us i (slice_get exact.now i)) }
{
    match exact.get(i as usize) {
        Some(ends) => push_exact(list, tick_us, i, *ends),
        None => Ok(()),
    }
}

// What the exact ends tell, in microseconds.
fn push_exact(list: &mut Vec<Warning>, tick_us: u32, i: u32, ends: Interval) -> Result<(), Memory>
    requires tick { (0 < tick_us) × (tick_us < 1000001) }
    requires ends { AreEnds ends }
    ensures { OnOk result (list.new.items
        ≡ list.old.items ++ exact_warnings tick_us i (Some ends)) }
{
    push_if(
        list,
        is_below_tick(tick_us, ends.greatest),
        Warning::BelowTick(i),
    )?;
    push_if(list, is_rounded(tick_us, ends), Warning::Rounded(i))
}

// What the interval in ticks tells.
#[tactic(auto, unfolding(crate::specs::warnings::Warnings::declared_warnings))]
fn push_declared(list: &mut Vec<Warning>, line: &Line, i: u32) -> Result<(), Memory>
    requires { i < param_count line.now }
    ensures { OnOk result (list.new.items ≡ list.old.items ++ declared_warnings line.now i) }
{
    let least = line.least(i);
    let greatest = line.greatest(i);
    let horizon = line.horizon;
    push_if(list, horizon <= least, Warning::PastHorizon(i))?;
    let reaches = least < horizon && horizon <= greatest;
    push_if(list, reaches, Warning::ReachesHorizon(i))?;
    let wide = 0 < least && 100 * least < greatest;
    push_if(list, wide, Warning::Wide(i))?;
    push_if(list, is_fixed_delay(line, i), Warning::FixedDelay(i))
}

fn is_below_tick(tick_us: u32, time: Fraction) -> bool
    requires tick { tick_us < 1000001 }
    requires end { IsEnd time }
    ensures { result ≡ is_below_tick tick_us time }
{
    0 < time.over && time.over < u128::from(tick_us) * time.under
}

fn is_whole(tick_us: u32, time: Fraction) -> bool
    requires tick { (0 < tick_us) × (tick_us < 1000001) }
    requires end { IsEnd time }
    ensures { result ≡ is_whole tick_us time }
{
    time.over % (u128::from(tick_us) * time.under) == 0
}

fn is_rounded(tick_us: u32, ends: Interval) -> bool
    requires tick { (0 < tick_us) × (tick_us < 1000001) }
    requires ends { AreEnds ends }
    ensures { result ≡ is_rounded tick_us ends }
{
    is_off(tick_us, ends.least) || is_off(tick_us, ends.greatest)
}

// Whether a time is no whole number of ticks, and would be one of shorter ones.
fn is_off(tick_us: u32, time: Fraction) -> bool
    requires tick { (0 < tick_us) × (tick_us < 1000001) }
    requires end { IsEnd time }
    ensures { result ≡ is_off tick_us time }
{
    !is_whole(tick_us, time) && is_whole(1, time)
}

fn is_fixed_delay(line: &Line, i: u32) -> bool
    requires { i < param_count line.now }
    ensures { result ≡ is_fixed_delay line.now i }
{
    line.is_delay(i) && line.least(i) == line.greatest(i)
}

/// How many microseconds an end of these times is moved at most where it is rounded outward to
/// ticks; a part of one counts as one.
pub fn most_moved(tick_us: u32, exact: &[Interval]) -> u128
    requires tick { (0 < tick_us) × (tick_us < 1000001) }
    requires ends { All AreEnds exact.now }
{
    let mut most = 0;
    for i in 0..exact.len() {
        most = moved_at(tick_us, exact, i).max(most);
    }
    most
}

fn moved_at(tick_us: u32, exact: &[Interval], i: usize) -> u128
    requires tick { (0 < tick_us) × (tick_us < 1000001) }
    requires ends { All AreEnds exact.now }
{
    match exact.get(i) {
        Some(ends) => moved(tick_us, *ends),
        None => 0,
    }
}

fn moved(tick_us: u32, ends: Interval) -> u128
    requires tick { (0 < tick_us) × (tick_us < 1000001) }
    requires ends { AreEnds ends }
{
    let down = past_tick(tick_us, ends.least);
    let up = past_tick(tick_us, ends.greatest);
    if up == 0 {
        down
    } else {
        down.max(u128::from(tick_us).saturating_sub(up))
    }
}

// How many microseconds, in whole ones, a time is past a tick; a part of one counts as one.
fn past_tick(tick_us: u32, time: Fraction) -> u128
    requires tick { (0 < tick_us) × (tick_us < 1000001) }
    requires end { IsEnd time }
{
    let past = time.over % (u128::from(tick_us) * time.under);
    if past % time.under == 0 {
        past / time.under
    } else {
        past / time.under + 1
    }
}
