//! One sample of the data, as it is written.

ghost use Rattle.base_memory.specs.Gives.{Gives};
ghost use Rattle.file_comtrade.specs.Data.{raw_at};
ghost use Rattle.file_comtrade.specs.{Views.texts, Views.raw_of};

use crate::ascii_sample::raw_in_line;
use crate::binary_sample::{chunk_at, raw_in_bytes};
use crate::config::Form;
use crate::fault::DataFault;
use crate::shape::{Shape, sample_bytes};
use base_memory::Stopped;
use std::alloc::Global;

/// A sample as it is written.
#[derive(Drop)]
pub struct RawSample {
    pub number: u32,
    pub stamp: Option<u64>,
    pub levels: Vec<bool>,
}

/// The sample with this index, where the lines are those of ASCII data, and the bytes binary ones.
#[tactic(auto, unfolding(crate::specs::Data::raw_at))]
pub fn raw_at(
    alloc: Global,
    shape: Shape,
    chosen: &[u32],
    lines: &[&[u8]],
    bytes: &[u8],
    k: u32,
) -> Result<RawSample, Stopped<DataFault>>
    ensures { Gives raw_of result (raw_at shape chosen.now (texts lines.now) bytes.now k) }
{
    match shape.form {
        Form::Ascii => match lines.get(k as usize) {
            Some(line) => raw_in_line(alloc, shape, chosen, k, line),
            None => Err(Stopped::Fault(DataFault::Absent(k as usize + 1))),
        },
        Form::Binary | Form::Binary32 | Form::Float32 => {
            match chunk_at(sample_bytes(shape), bytes, k as usize) {
                Some(row) => {
                    let raw = raw_in_bytes(alloc, shape, chosen, row)?;
                    Ok(raw)
                }
                None => Err(Stopped::Fault(DataFault::Absent(k as usize + 1))),
            }
        }
    }
}
