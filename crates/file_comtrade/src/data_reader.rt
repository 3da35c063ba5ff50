//! Reading the data.

ghost use Rattle.std.specs.Prelude.{◌≡◌, ◌<◌, ◌-◌, ◌^◌, [], IfOk, map, length};
ghost use Rattle.std.specs.Bool.{OnTrue};
ghost use Rattle.base_memory.specs.Gives.{Gives};
ghost use Rattle.file_comtrade.specs.Config.{values_of};
ghost use Rattle.file_comtrade.specs.Data.{samples_of, samples_in, sample_after, follows, not_before};
ghost use Rattle.file_comtrade.specs.Data.{is_done, last_in, lines_in, or_absent, shape_of, sample_lines};
ghost use Rattle.file_comtrade.specs.{Steps.steps, Views.texts};
ghost use Rattle.file_comtrade.specs.SampleViews.{sample_values, times_in, IsAfter, OneLater};
ghost use Rattle.file_comtrade.specs.Levels.{NeverFalls};

use crate::blank::blank_from;
use crate::config::{Config, Form};
use crate::fault::DataFault;
use crate::raw_sample::raw_at;
use crate::shape::{Shape, sample_bytes};
use crate::text::{before_byte, lines, unmarked};
use crate::time::{has_time, time_of};
use base_memory::Stopped;
use std::alloc::{AllocError, Global};

/// A sample of the chosen channels.
#[derive(Drop)]
pub struct Sample {
    pub number: u32,
    /// In nanoseconds after the first.
    pub time: u64,
    /// The levels of the chosen channels, in the order of the choice.
    pub levels: Vec<bool>,
}

/// The samples of the digital channels with these indices, or the first fault.
#[tactic(auto, unfolding(crate::specs::Data::samples_of))]
pub fn read_samples(
    alloc: Global,
    config: &Config,
    chosen: &[u32],
    bytes: &[u8],
) -> Result<Vec<Sample>, Stopped<DataFault>>
    requires { length config.now.digital.items < 2 ^ 32 }
    ensures said { Gives (λ v. map sample_values v.items) result
        (samples_of (values_of config.now) chosen.now bytes.now) }
    ensures many { IfOk result (λ v. length v.items ≡ config.now.sampling.samples) }
    ensures later { IfOk result (λ v. NeverFalls (times_in v.items)) }
{
    let lines = lines_in(alloc, config, bytes)?;
    match samples_in(alloc, config, chosen, lines.as_slice(), bytes) {
        Ok(samples) => Ok(samples),
        Err(Stopped::Fault(why)) => Err(Stopped::Fault(or_absent(lines.as_slice(), why))),
        Err(Stopped::Memory) => Err(Stopped::Memory),
    }
}

// The lines of data in ASCII.
fn lines_in<'a>(
    alloc: Global,
    config: &Config,
    bytes: &'a [u8],
) -> Result<Vec<&'a [u8]>, AllocError>
    ensures { IfOk result (λ v. texts v.items ≡ lines_in (values_of config.now) bytes.now) }
{
    match config.form {
        Form::Ascii => sample_lines(alloc, bytes),
        Form::Binary | Form::Binary32 | Form::Float32 => Ok(Vec::new(alloc)),
    }
}

// The fault, or that the data end before its sample.
fn or_absent(lines: &[&[u8]], why: DataFault) -> DataFault
    ensures { result ≡ or_absent (texts lines.now) why }
{
    match why {
        DataFault::Fields(n) => {
            if blank_from(lines, n.saturating_sub(1)) {
                DataFault::Absent(n)
            } else {
                why
            }
        }
        _ => why,
    }
}

fn sample_lines(alloc: Global, bytes: &[u8]) -> Result<Vec<&[u8]>, AllocError>
    ensures { IfOk result (λ v. texts v.items ≡ sample_lines bytes.now) }
{
    lines(alloc, before_byte(unmarked(bytes), 26))
}

#[tactic(auto, unfolding(crate::specs::Data::samples_in))]
fn samples_in(
    alloc: Global,
    config: &Config,
    chosen: &[u32],
    lines: &[&[u8]],
    bytes: &[u8],
) -> Result<Vec<Sample>, Stopped<DataFault>>
    requires { length config.now.digital.items < 2 ^ 32 }
    ensures said { Gives (λ v. map sample_values v.items) result
        (samples_in (values_of config.now) chosen.now (texts lines.now) bytes.now) }
    ensures many { IfOk result (λ v. length v.items ≡ config.now.sampling.samples) }
    ensures later { IfOk result (λ v. NeverFalls (times_in v.items)) }
{
    let samples = all_samples(alloc, config, chosen, lines, bytes)?;
    if is_done(config, lines, bytes) {
        Ok(samples)
    } else {
        Err(Stopped::Fault(DataFault::Surplus(config.sampling.samples as usize + 1)))
    }
}

fn all_samples(
    alloc: Global,
    config: &Config,
    chosen: &[u32],
    lines: &[&[u8]],
    bytes: &[u8],
) -> Result<Vec<Sample>, Stopped<DataFault>>
    requires { length config.now.digital.items < 2 ^ 32 }
    ensures many { IfOk result (λ v. length v.items ≡ config.now.sampling.samples) }
    ensures later { IfOk result (λ v. NeverFalls (times_in v.items)) }
    ensures said { Gives (λ v. map sample_values v.items) result
        (steps (sample_after (values_of config.now) chosen.now (texts lines.now) bytes.now) []
        config.now.sampling.samples) }
{
    let mut samples = Vec::new(alloc);
    for k in 0..config.sampling.samples {
        samples = sample_after(alloc, config, chosen, lines, bytes, samples, k)?;
    }
    Ok(samples)
}

#[tactic(auto, unfolding(crate::specs::Data::sample_after))]
fn sample_after(
    alloc: Global,
    config: &Config,
    chosen: &[u32],
    lines: &[&[u8]],
    bytes: &[u8],
    samples: Vec<Sample>,
    k: u32,
) -> Result<Vec<Sample>, Stopped<DataFault>>
    requires few { length config.now.digital.items < 2 ^ 32 }
    requires one_more { k < 2 ^ 32 - 1 }
    ensures more { IfOk result (λ v. OneLater (times_in samples.items) (times_in v.items)) }
    ensures said { Gives (λ v. map sample_values v.items) result
        (sample_after (values_of config.now) chosen.now (texts lines.now) bytes.now
        (map sample_values samples.items) k) }
{
    let mut samples = samples;
    let shape = shape_of(config);
    let raw = raw_at(alloc, shape, chosen, lines, bytes, k)?;
    if !follows(samples.as_slice(), raw.number) {
        return Err(Stopped::Fault(DataFault::Number(k as usize + 1)));
    }
    if !has_time(config, raw.stamp) {
        return Err(Stopped::Fault(DataFault::NoStamp(k as usize + 1)));
    }
    let Some(time) = time_of(config, k + 1, raw.stamp) else {
        return Err(Stopped::Fault(DataFault::TooLate(k as usize + 1)));
    };
    if !not_before(samples.as_slice(), time) {
        return Err(Stopped::Fault(DataFault::Earlier(k as usize + 1)));
    }
    samples.push(Sample {
        number: raw.number,
        time,
        levels: raw.levels,
    })?;
    Ok(samples)
}

fn shape_of(config: &Config) -> Shape
    requires { length config.now.digital.items < 2 ^ 32 }
    ensures { result ≡ shape_of (values_of config.now) }
{
    Shape {
        analog: config.analog,
        digital: config.digital.len() as u32,
        form: config.form,
    }
}

// Whether the number is one above that of the sample before.
#[tactic(auto, unfolding(crate::specs::Data::follows))]
fn follows(samples: &[Sample], number: u32) -> bool
    ensures { result ≡ follows (last_in (map sample_values samples.now)) number }
{
    match samples.last() {
        Some(sample) => u64::from(number) == u64::from(sample.number) + 1,
        None => true,
    }
}

#[tactic(auto, unfolding(crate::specs::Data::not_before))]
fn not_before(samples: &[Sample], time: u64) -> bool
    ensures value { result ≡ not_before (last_in (map sample_values samples.now)) time }
    ensures after { OnTrue result (IsAfter (times_in samples.now) time) }
{
    match samples.last() {
        Some(sample) => sample.time <= time,
        None => true,
    }
}

// Whether nothing follows the samples but, in a text, blank lines.
#[tactic(auto, unfolding(crate::specs::Data::is_done))]
fn is_done(config: &Config, lines: &[&[u8]], bytes: &[u8]) -> bool
    requires { length config.now.digital.items < 2 ^ 32 }
    ensures { result ≡ is_done (values_of config.now) (texts lines.now) bytes.now }
{
    let samples = config.sampling.samples;
    match config.form {
        Form::Ascii => blank_from(lines, samples as usize),
        Form::Binary | Form::Binary32 | Form::Float32 => {
            let size = sample_bytes(shape_of(config));
            bytes.len() as u128 == u128::from(samples) * size as u128
        }
    }
}
