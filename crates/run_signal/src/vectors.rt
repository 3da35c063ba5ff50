//! Sixty-four numbers side by side, and the step of the timed cells by them.
#![tactic(auto)]

ghost use Rattle.std.specs.Prelude.{◌≡◌, ℕ, ◌+◌, ◌<◌, ◌≤◌, if◌then◌else◌, nat_lt};
ghost use Rattle.std.specs.Prelude.{slice_index};
ghost use Rattle.run_signal.specs.Bits.{bit_on};
ghost use Rattle.run_signal.specs.Counts.{run_after, left_after, steady_of};
ghost use Rattle.run_signal.specs.Vectors.{HasLanes};

use crate::Signal;
use crate::lane::{left_after, run_after, steady_ticks};
use crate::lanes::{Lanes64, Ticks64};
use std::simd::prelude::*;

/// Takes so many more ticks into the runs, all with this input.
pub fn take_runs(run: &mut [u16; 64], pickup: &[u16; 64], input: Lanes64, count: u16)
    requires pickup { (i : ℕ) → i < 64 → slice_index pickup.now i ≤ 4000 }
    requires run { (i : ℕ) → i < 64 → slice_index run.old i ≤ 4001 }
    requires count { count ≤ 4000 }
    ensures { HasLanes run.new
        (λ i. run_after (slice_index pickup.now i) count (slice_index run.old i)
        (bit_on input i)) }
{
    let on = spread(input);
    for lane in 0..64 {
        run[lane] = run_after(pickup[lane], run[lane], on[lane], count);
    }
}

/// Takes so many more ticks into what is left, where these are the runs after them.
pub fn take_left(
    left: &mut [u16; 64],
    pickup: &[u16; 64],
    dropout: &[u16; 64],
    run: &[u16; 64],
    count: u16,
)
    requires dropout { (i : ℕ) → i < 64 → slice_index dropout.now i ≤ 4000 }
    requires left { (i : ℕ) → i < 64 → slice_index left.old i ≤ slice_index dropout.now i + 1 }
    ensures { HasLanes left.new
        (λ i. left_after (slice_index pickup.now i) (slice_index dropout.now i) count
        (slice_index run.now i) (slice_index left.old i)) }
{
    for lane in 0..64 {
        left[lane] = left_after(pickup[lane], dropout[lane], run[lane], left[lane], count);
    }
}

/// For how many ticks with this input the answers of all lanes stay the same, up to 4,000.
pub fn least_steady(pickup: &[u16; 64], run: &[u16; 64], left: &[u16; 64], input: Lanes64) -> u16
    ensures under { (i : ℕ) → i < 64 → result ≤
        steady_of (slice_index pickup.now i) (slice_index run.now i) (slice_index left.now i)
        (bit_on input i) }
    ensures met { result < 4000 → (i : ℕ) × (i < 64) × (result ≡
        steady_of (slice_index pickup.now i) (slice_index run.now i) (slice_index left.now i)
        (bit_on input i)) }
    ensures limited { result ≤ 4000 }
{
    let on = spread(input);
    let mut least: u16 = 4000;
    for lane in 0..64 {
        least = least.min(steady_ticks(pickup[lane], run[lane], left[lane], on[lane]));
    }
    least
}

/// The lanes in which something is left.
pub fn lasting(left: &[u16; 64]) -> Lanes64
    ensures { (i : ℕ) → i < 64 → bit_on result i ≡ nat_lt 0 (slice_index left.now i) }
{
    let nothing = u16x64::splat(0);
    Lanes64::from_bits(bits_below(nothing, u16x64::from_slice(left)))
}

/// One in each lane that is on, and nothing in the others.
pub fn spread(input: Lanes64) -> [u16; 64]
    ensures { HasLanes result (λ i. if bit_on input i then 1 else 0) }
{
    if input.same(Lanes64::known(false)) {
        return [0; 64];
    }
    if input.same(Lanes64::known(true)) {
        return [1; 64];
    }
    spread_bits(input)
}

// The same, bit by bit.
fn spread_bits(input: Lanes64) -> [u16; 64]
    ensures { HasLanes result (λ i. if bit_on input i then 1 else 0) }
{
    let mut lanes = [0; 64];
    for lane in 0..64 {
        lanes[lane] = input.must(lane as u32) as u16;
    }
    lanes
}

/// The numbers of ticks.
pub fn ticks_of(span: &Ticks64) -> [u16; 64]
    ensures lanes { HasLanes result (λ i. slice_index span.now i) }
    ensures limited { (i : ℕ) → i < 64 → slice_index span.now i ≤ 4000 }
{
    *span.as_array()
}

/// The lanes where a is less than b, as bits.
pub fn bits_below(a: u16x64, b: u16x64) -> u64
    ensures { (i : ℕ) → i < 64 →
        bit_on result i ≡ nat_lt (slice_index a i) (slice_index b i) }
{
    a.simd_lt(b).to_bitmask()
}
