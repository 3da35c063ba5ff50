//! The choices of the swept times of a fault.

ghost use Rattle.std.specs.Prelude.{◌≡◌, ◌/◌, ◌+◌, IfOk, map, length, sum};
ghost use Rattle.file_study.specs.study.Faults.{fault_values, stage_values};
ghost use Rattle.file_study.specs.sweeps.Choices.{value_at, lasts_at, choice_of, choice_values};
ghost use Rattle.file_study.specs.sweeps.Choices.{horizon_for};

use crate::study::{Stage, SweptFault};
use model_line::Memory;
use std::alloc::Global;

/// One value of each time of a fault, in ticks. `within` is counted from the start; of an external
/// fault it is 0.
#[derive(Drop)]
pub struct Choice {
    pub start: u32,
    pub within: u32,
    /// How long each stage lasts.
    pub lasts: Vec<u32>,
}

/// Choice k of a fault, counted from 0. The start goes through its values fastest, then
/// `trip_within`, then the stages, the first of them first.
pub fn choice_at(alloc: Global, fault: &SweptFault, k: u32) -> Result<Choice, Memory>
    ensures { IfOk result (λ c. choice_values c ≡ choice_of (fault_values fault.now) k) }
{
    let k = k as usize;
    let start = value(&fault.start, k);
    let k = rest(&fault.start, k);
    let within = value(&fault.trip_within, k);
    let k = rest(&fault.trip_within, k);
    let lasts = lasts(alloc, &fault.stages, k)?;
    Ok(Choice {
        start,
        within,
        lasts,
    })
}

// Value k of a time, counted round; 0 of a time without values.
fn value(time: &[u32], k: usize) -> u32
    ensures { result ≡ value_at time.now k }
{
    if time.is_empty() {
        return 0;
    }
    time[k % time.len()]
}

// What is left of the choice's number behind a time.
fn rest(time: &[u32], k: usize) -> usize
    ensures { result ≡ k / length time.now }
{
    if time.is_empty() {
        return 0;
    }
    k / time.len()
}

fn lasts(alloc: Global, stages: &[Stage], k: usize) -> Result<Vec<u32>, Memory>
    ensures { IfOk result (λ v. v.items ≡ lasts_at (map stage_values stages.now) k) }
{
    let mut values = Vec::new(alloc);
    let mut left = k;
    for stage in stages {
        values.push(value(&stage.lasts, left))?;
        left = rest(&stage.lasts, left);
    }
    Ok(values)
}

/// The horizon that a choice needs: its last stage ends there at the latest, and its deadline, or
/// the start of an external fault, is before.
pub fn horizon_for(choice: &Choice) -> u128
    ensures { result ≡ horizon_for (choice_values choice.now) }
{
    let end = last_end(choice.start, &choice.lasts);
    let deadline = choice.start as u128 + choice.within as u128 + 1;
    if end < deadline { deadline } else { end }
}

// Where the last of stages ends that last so long, from a start on.
fn last_end(start: u32, lasts: &[u32]) -> u128
    ensures { result ≡ start + sum lasts.now }
{
    let mut tick = start as u128;
    for stage in lasts {
        tick += *stage as u128;
    }
    tick
}
