//! One sample of binary data.

ghost use Rattle.std.specs.Prelude.{◌≡◌, ◌<◌, ◌^◌, IfOk, map, option_map};
ghost use Rattle.file_comtrade.specs.RawSample.{chunk_at, long_at, word_at, level_bit, stamp_in};
ghost use Rattle.file_comtrade.specs.RawSample.{raw_in_bytes};
ghost use Rattle.file_comtrade.specs.{Views.raw_of};

use crate::raw_sample::RawSample;
use crate::shape::{Shape, analog_bytes};
use byteorder::{ByteOrder, LittleEndian};
use std::alloc::{AllocError, Global};

/// The sample with this index, of those that stand one after another.
#[tactic(auto, unfolding(crate::specs::RawSample::chunk_at))]
pub fn chunk_at(size: usize, bytes: &[u8], k: usize) -> Option<&[u8]>
    requires { k < 2 ^ 32 }
    ensures { option_map (λ row. row.now) result ≡ chunk_at size bytes.now k }
{
    let start = k.checked_mul(size)?;
    let end = start.checked_add(size)?;
    if end <= bytes.len() {
        Some(&bytes[start..end])
    } else {
        None
    }
}

fn long_at(row: &[u8], at: usize) -> u32
    requires { at < 2 ^ 40 }
    ensures { result ≡ long_at row.now at }
{
    if at + 4 <= row.len() {
        LittleEndian::read_u32(&row[at..])
    } else {
        0
    }
}

fn word_at(row: &[u8], at: usize) -> u16
    requires { at < 2 ^ 40 }
    ensures { result ≡ word_at row.now at }
{
    if at + 2 <= row.len() {
        LittleEndian::read_u16(&row[at..])
    } else {
        0
    }
}

#[tactic(auto, unfolding(crate::specs::RawSample::level_bit))]
fn level_bit(shape: Shape, row: &[u8], channel: u32) -> bool
    ensures { result ≡ level_bit shape row.now channel }
{
    let at = 8 + analog_bytes(shape.form, shape.analog) + 2 * (channel as usize / 16);
    (word_at(row, at) >> (channel % 16)) & 1 == 1
}

fn stamp_in(stamp: u32) -> Option<u64>
    ensures { result ≡ stamp_in stamp }
{
    if stamp == u32::MAX {
        None
    } else {
        Some(u64::from(stamp))
    }
}

#[tactic(auto, unfolding(crate::specs::RawSample::raw_in_bytes))]
pub fn raw_in_bytes(
    alloc: Global,
    shape: Shape,
    chosen: &[u32],
    row: &[u8],
) -> Result<RawSample, AllocError>
    ensures { IfOk result (λ raw. raw_of raw ≡ raw_in_bytes shape chosen.now row.now) }
{
    let levels = levels_in_bytes(alloc, shape, chosen, row)?;
    Ok(RawSample {
        number: long_at(row, 0),
        stamp: stamp_in(long_at(row, 4)),
        levels,
    })
}

fn levels_in_bytes(
    alloc: Global,
    shape: Shape,
    chosen: &[u32],
    row: &[u8],
) -> Result<Vec<bool>, AllocError>
    ensures { IfOk result (λ v. v.items ≡ map (level_bit shape row.now) chosen.now) }
{
    chosen
        .iter()
        .map(|channel| level_bit(shape, row, *channel))
        .collect(alloc)
}
