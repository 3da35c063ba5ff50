//! What the samples of a channel are beside its levels at ticks.

ghost use Rattle.std.specs.Prelude.{◌≡◌, ◌≤◌, ◌<◌, ◌+◌, ◌^◌, length, map};
ghost use Rattle.file_comtrade.specs.{Record.times_of, SampleViews.sample_values, Ticks.AreAtTicks};
ghost use Rattle.file_records.specs.tracks.Sampled.{AreSampled, change_after as change_said};
ghost use Rattle.file_records.specs.tracks.Sampled.{changes_from as changes_said, level_of as level_said};

use file_comtrade::{Sample, Ticks};

/// How far the samples of a channel reach, in nanoseconds, and how often its level changes.
#[derive(Clone, Copy)]
pub struct Sampled {
    /// From the first sample to tick 0.
    pub before: u64,
    /// From tick 0 to the last sample.
    pub after: u64,
    /// From one sample to the next, from that of tick 0 up to that of the last tick.
    pub changes: u64,
}

// The level of the chosen channel in a sample.
fn level_of(samples: &[Sample], k: usize) -> bool
    ensures { result ≡ level_said (map sample_values samples.now) k }
{
    match samples.get(k) {
        Some(sample) => sample.levels.get(0).copied().unwrap_or(false),
        None => false,
    }
}

// 1 where the level of the next sample is another.
fn change_after(samples: &[Sample], k: usize) -> u64
    requires { k + 1 < 2 ^ 64 }
    ensures value { result ≡ change_said (map sample_values samples.now) k }
    ensures small { result ≤ 1 }
{
    if level_of(samples, k) == level_of(samples, k + 1) {
        0
    } else {
        1
    }
}

// How often it changes in so many steps from a sample on.
fn changes_from(samples: &[Sample], from: usize, steps: usize) -> u64
    requires { from + steps < 2 ^ 64 }
    ensures { result ≡ changes_said (map sample_values samples.now) from steps }
{
    let mut changes = 0;
    for n in 0..steps {
        changes += change_after(samples, from + n);
    }
    changes
}

/// By the samples of a channel, their times, and the sample of each tick.
pub fn by_samples(
    origin: u128,
    times: &[u64],
    samples: &[Sample],
    ticks: Ticks,
    at: &[usize],
) -> Sampled
    requires early { origin < 2 ^ 100 }
    requires some { 0 < length times.now }
    requires many { 0 < length at.now }
    requires times { times.now ≡ times_of (map sample_values samples.now) }
    requires at { AreAtTicks origin times.now ticks at.now }
    ensures { AreSampled origin (map sample_values samples.now) ticks result }
{
    let from = at[0];
    let to = at[at.len() - 1];
    let first = origin + u128::from(times[0]);
    let last = origin + u128::from(times[times.len() - 1]);
    Sampled {
        before: (ticks.start - first) as u64,
        after: (last - ticks.start) as u64,
        changes: changes_from(samples, from, to.saturating_sub(from)),
    }
}
