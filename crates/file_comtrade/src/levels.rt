//! The levels of a channel at ticks.

ghost use Rattle.std.specs.Prelude.{◌≡◌, IfOk, map, slice_get};
ghost use Rattle.file_comtrade.specs.{Levels.levels_at, Levels.level_in, SampleViews.sample_values};

use crate::data_reader::Sample;
use std::alloc::{AllocError, Global};

/// The levels of a chosen channel, by its place in the choice, at ticks, by the samples there.
pub fn levels_at(
    alloc: Global,
    samples: &[Sample],
    choice: usize,
    at: &[usize],
) -> Result<Vec<bool>, AllocError>
    ensures { IfOk result (λ v. v.items ≡ levels_at (map sample_values samples.now) choice at.now) }
{
    at.iter()
        .map(|i| level_at(samples, choice, *i))
        .collect(alloc)
}

fn level_at(samples: &[Sample], choice: usize, i: usize) -> bool
    ensures { result ≡ level_in choice (slice_get (map sample_values samples.now) i) }
{
    match samples.get(i) {
        Some(sample) => sample.levels.get(choice).copied().unwrap_or(false),
        None => false,
    }
}
