//! The levels of one digital channel at ticks.

ghost use Rattle.std.specs.Prelude.{◌≡◌, ◌<◌, ◌^◌, IfErr, IfOk, MatchResult, Ok, length, map};
ghost use Rattle.base_memory.specs.Gives.{OfFault};
ghost use Rattle.file_comtrade.specs.{Config.config_of, Config.values_of, Named.IsNamedBelow, Views.texts};
ghost use Rattle.file_comtrade.specs.Record.{files_of, AreAt, IsChannelNamed};
ghost use Rattle.file_comtrade.specs.SampleViews.{sample_values};
ghost use Rattle.file_comtrade.specs.declared.ticks.Ticks.{Ticks};
ghost use Rattle.file_records.specs.map.Sources.{channel_said};
ghost use Rattle.file_records.specs.tracks.Channels.{numbered, picked, AreLevels, AreSamples, IsGap};
ghost use Rattle.file_records.specs.tracks.Channels.{IsRefused};
ghost use Rattle.file_records.specs.tracks.Sampled.{AreSampled, IsSampled};

use crate::map::ChannelName;
use crate::tracks::samples::{Sampled, by_samples};
use base_memory::Stopped;
use file_comtrade::{
    Config, Files, Named, RecordFault, Sample, Ticks, channel_named, levels_at, read_config,
    read_samples, samples_at, times_of,
};
use std::alloc::Global;

// Channel n of so many, the first being 1.
fn numbered(count: usize, n: u32) -> Named
    ensures value { result ≡ numbered count n }
    ensures inside { IsNamedBelow count result }
{
    let n = n as usize;
    if 0 < n && n <= count {
        Named::One(n - 1)
    } else {
        Named::Nothing
    }
}

// What is named among the digital channels of a configuration.
fn picked(config: &Config, channel: &ChannelName) -> Named
    ensures value { result ≡ picked (texts config.now.digital.items) (channel_said channel.now) }
    ensures inside { IsNamedBelow (length config.now.digital.items) result }
{
    match channel {
        ChannelName::Id(id) => channel_named(&config.digital, id),
        ChannelName::Number(n) => numbered(config.digital.len(), *n),
    }
}

// The index of the one channel that is named.
fn index_of(config: &Config, channel: &ChannelName) -> Result<u32, RecordFault>
    requires { length config.now.digital.items < 2 ^ 32 }
    ensures { IsChannelNamed (picked (texts config.now.digital.items) (channel_said channel.now)) result }
{
    match picked(config, channel) {
        Named::Nothing => Err(RecordFault::NoChannel),
        Named::One(i) => Ok(i as u32),
        Named::More => Err(RecordFault::ManyChannels),
    }
}

/// What a channel says: its level at each tick, and what its samples are beside that.
#[derive(Drop)]
pub struct ChannelLevels {
    pub at_ticks: Vec<bool>,
    pub sampled: Sampled,
}

// What the data say of the one digital channel that is named.
fn channel_samples(
    alloc: Global,
    files: Files,
    config: &Config,
    channel: &ChannelName,
) -> Result<Vec<Sample>, Stopped<RecordFault>>
    requires few { length config.now.digital.items < 2 ^ 32 }
    requires said { config_of (files_of files).dates (files_of files).config
        ≡ Ok (values_of config.now) }
    ensures samples { IfOk result (λ v. AreSamples (files_of files.entry) (channel_said channel.now)
        (values_of config.now) (map sample_values v.items)) }
    ensures many { IfOk result (λ v. length v.items ≡ config.now.sampling.samples) }
    ensures refused { (ticks : Ticks) → IfErr result
        (OfFault (IsRefused (files_of files.entry) (channel_said channel.now) ticks)) }
{
    let index = index_of(config, channel)?;
    let chosen = [index];
    match read_samples(alloc, config, &chosen, files.samples) {
        Ok(samples) => Ok(samples),
        Err(why) => Err(RecordFault::of_data(config.form, why)),
    }
}

// The levels at the ticks, of samples of which the first is taken at this instant.
fn at_ticks(
    alloc: Global,
    first: u128,
    samples: &[Sample],
    ticks: Ticks,
) -> Result<ChannelLevels, Stopped<RecordFault>>
    requires early { first < 2 ^ 100 }
    requires some { 0 < length samples.now }
    requires start { ticks.start < 2 ^ 100 }
    requires ticks { 0 < ticks.count }
    requires tick { 0 < ticks.tick }
    ensures { MatchResult result
        (λ v. AreAt first (map sample_values samples.now) ticks v.at_ticks.items
        × AreSampled first (map sample_values samples.now) ticks v.sampled)
        (OfFault (IsGap first (map sample_values samples.now) ticks)) }
{
    let times = times_of(alloc, samples)?;
    let at = match samples_at(alloc, first, &times, ticks) {
        Ok(at) => at,
        Err(why) => return Err(RecordFault::of_ticks(why)),
    };
    let levels = levels_at(alloc, samples, 0, &at)?;
    Ok(ChannelLevels {
        at_ticks: levels,
        sampled: by_samples(first, &times, samples, ticks, &at),
    })
}

/// The levels, at each tick, of the one digital channel that is named.
pub fn channel_levels(
    alloc: Global,
    files: Files,
    channel: &ChannelName,
    ticks: Ticks,
) -> Result<ChannelLevels, Stopped<RecordFault>>
    requires start { ticks.start < 2 ^ 100 }
    requires ticks { 0 < ticks.count }
    requires tick { 0 < ticks.tick }
    ensures { MatchResult result
        (λ v. AreLevels (files_of files.entry) (channel_said channel.now) ticks v.at_ticks.items
        × IsSampled (files_of files.entry) (channel_said channel.now) ticks v.sampled)
        (OfFault (IsRefused (files_of files.entry) (channel_said channel.now) ticks)) }
{
    let config = match read_config(alloc, files.config, files.dates) {
        Ok(config) => config,
        Err(why) => return Err(RecordFault::of_config(why)),
    };
    let samples = channel_samples(alloc, files, &config, channel)?;
    at_ticks(alloc, config.first, &samples, ticks)
}
