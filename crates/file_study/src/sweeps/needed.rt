//! The horizon that a fault needs.

ghost use Rattle.std.specs.Prelude.{◌≡◌, ◌<◌, ◌^◌, map, max, sum};
ghost use Rattle.file_study.specs.study.Faults.{fault_values, stage_values};
ghost use Rattle.file_study.specs.sweeps.Refusals.{greatest as greatest_value, horizon_of as horizon};

use crate::study::{Stage, SweptFault};

/// The horizon that serves all choices of a fault: that of the latest start with the longest stages
/// and the latest deadline.
pub fn horizon_of(fault: &SweptFault) -> u128
    ensures { result ≡ horizon (fault_values fault.now) }
{
    let start = greatest(&fault.start) as u128;
    let end = start + longest(&fault.stages);
    let deadline = start + greatest(&fault.trip_within) as u128 + 1;
    if end < deadline { deadline } else { end }
}

// The greatest value of a time.
fn greatest(time: &[u32]) -> u32
    ensures { result ≡ greatest_value time.now }
{
    let mut most = 0;
    for value in time {
        most = larger(most, *value);
    }
    most
}

fn larger(a: u32, b: u32) -> u32
    ensures { result ≡ max a b }
{
    if a < b { b } else { a }
}

// How long stages last together at most.
fn longest(stages: &[Stage]) -> u128
    ensures is { result
        ≡ sum (map (λ s. greatest_value s.lasts) (map stage_values stages.now)) }
    ensures small { result < 2 ^ 100 }
{
    let mut ticks = 0u128;
    for stage in stages {
        ticks += greatest(&stage.lasts) as u128;
    }
    ticks
}
