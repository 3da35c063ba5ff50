//! One sample of ASCII data.

ghost use Rattle.std.specs.Prelude.{◌≡◌, ◌<◌, [], length};
ghost use Rattle.base_memory.specs.Gives.{Gives};
ghost use Rattle.file_comtrade.specs.RawSample.{level_field, level_after, stamp_of};
ghost use Rattle.file_comtrade.specs.RawSample.{numbers_in, raw_in_line};
ghost use Rattle.file_comtrade.specs.{Steps.steps, Views.texts, Views.raw_of};

use crate::fault::DataFault;
use crate::number::{natural, whole};
use crate::raw_sample::RawSample;
use crate::shape::Shape;
use crate::text::fields;
use base_memory::Stopped;
use base_records::level_named;
use std::alloc::Global;

// The level of a channel, in the fields of a line.
fn level_field(shape: Shape, fields: &[&[u8]], channel: u32) -> Option<bool>
    ensures { result ≡ level_field shape (texts fields.now) channel }
{
    let at = 2 + shape.analog as usize + channel as usize;
    match fields.get(at) {
        Some(field) => level_named(field),
        None => None,
    }
}

#[tactic(auto, unfolding(crate::specs::RawSample::level_after))]
fn level_after(
    shape: Shape,
    chosen: &[u32],
    fields: &[&[u8]],
    k: u32,
    levels: Vec<bool>,
    j: usize,
) -> Result<Vec<bool>, Stopped<DataFault>>
    requires { j < length chosen.now }
    ensures { Gives (λ v. v.items) result
        (level_after shape chosen.now (texts fields.now) k levels.items j) }
{
    let mut levels = levels;
    let channel = chosen[j];
    let Some(level) = level_field(shape, fields, channel) else {
        return Err(Stopped::Fault(DataFault::Level {
            sample: k as usize + 1,
            channel: channel as usize + 1,
            field: 2 + shape.analog as usize + channel as usize,
        }));
    };
    levels.push(level)?;
    Ok(levels)
}

fn levels_in_fields(
    alloc: Global,
    shape: Shape,
    chosen: &[u32],
    fields: &[&[u8]],
    k: u32,
) -> Result<Vec<bool>, Stopped<DataFault>>
    ensures { Gives (λ v. v.items) result
        (steps (level_after shape chosen.now (texts fields.now) k) [] (length chosen.now)) }
{
    let mut levels = Vec::new(alloc);
    for j in 0..chosen.len() {
        levels = level_after(shape, chosen, fields, k, levels, j)?;
    }
    Ok(levels)
}

// A stamp may be left out.
fn stamp_of(text: &[u8]) -> Option<Option<u64>>
    ensures { result ≡ stamp_of text.now }
{
    match text {
        [] => Some(None),
        _ => {
            let stamp = whole(text)?;
            Some(Some(stamp))
        }
    }
}

// The number and the stamp of a sample, where there is a field for each channel.
#[tactic(auto, unfolding(crate::specs::RawSample::numbers_in))]
fn numbers_in(shape: Shape, k: u32, fields: &[&[u8]]) -> Result<(u32, Option<u64>), DataFault>
    ensures { result ≡ numbers_in shape k (texts fields.now) }
{
    if fields.len() != 2 + shape.analog as usize + shape.digital as usize {
        return Err(DataFault::Fields(k as usize + 1));
    }
    let Some(number) = natural(fields[0]) else {
        return Err(DataFault::Number(k as usize + 1));
    };
    let Some(stamp) = stamp_of(fields[1]) else {
        return Err(DataFault::Stamp(k as usize + 1));
    };
    Ok((number, stamp))
}

#[tactic(auto, unfolding(crate::specs::RawSample::raw_in_line))]
pub fn raw_in_line(
    alloc: Global,
    shape: Shape,
    chosen: &[u32],
    k: u32,
    line: &[u8],
) -> Result<RawSample, Stopped<DataFault>>
    ensures { Gives raw_of result (raw_in_line shape chosen.now k line.now) }
{
    let fields = fields(alloc, line)?;
    let (number, stamp) = numbers_in(shape, k, fields.as_slice())?;
    let levels = levels_in_fields(alloc, shape, chosen, fields.as_slice(), k)?;
    Ok(RawSample {
        number,
        stamp,
        levels,
    })
}
