//! The levels of gates that follow from what is assumed.

ghost use Rattle.std.specs.Prelude.{◌<◌};

use crate::bits::{holds, only};
use crate::lists::push;
use crate::scene::Scene;
use crate::views::{Assumed64, Views64};
use model_line::Memory;
use net_gates::GateId;
use std::alloc::Global;

/// A gate is at a level in these lanes, from a tick on, before another.
#[derive(Clone, Copy)]
pub struct Level64 {
    pub gate: GateId,
    pub on: bool,
    pub lanes: u64,
    pub from: u32,
    pub to: u32,
}

impl Level64 {
    /// Whether it is one of a gate, and of a tick.
    pub fn is_at(self, gate: GateId, t: u32) -> bool {
        self.gate == gate && self.from <= t && t < self.to
    }
}

/// All that follow: throughout a span an echo is wanted; and where it was not at some instant of the
/// span, no pulse is over from the end of the span on, for as long as the least pulse lasts from its
/// begin.
pub fn levels_of(alloc: Global, scene: &Scene, views: &Views64) -> Result<Vec<Level64>, Memory> {
    let mut levels = Vec::new(alloc);
    for assumed in views.assumed() {
        if assumed.one.throughout {
            push_wanted(scene, *assumed, &mut levels)?;
        } else {
            push_interrupted(scene, views, *assumed, &mut levels)?;
        }
    }
    Ok(levels)
}

// That of an echo that is wanted throughout a span.
fn push_wanted(scene: &Scene, assumed: Assumed64, levels: &mut Vec<Level64>) -> Result<(), Memory> {
    let span = assumed.one.span;
    let Some(echo) = scene.echo_of(span.terminal as usize) else {
        return Ok(());
    };
    push(
        levels,
        Level64 {
            gate: echo.wanted,
            on: true,
            lanes: assumed.lanes,
            from: span.from,
            to: span.to,
        },
    )
}

// Those of one that is interrupted: one for the lanes of each least pulse.
fn push_interrupted(
    scene: &Scene,
    views: &Views64,
    assumed: Assumed64,
    levels: &mut Vec<Level64>,
) -> Result<(), Memory> {
    let span = assumed.one.span;
    let Some(echo) = scene.echo_of(span.terminal as usize) else {
        return Ok(());
    };
    let pulses = views.least_of(echo.pulse);
    let mut left = assumed.lanes;
    for lane in 0..64 {
        if holds(left, lane as u32) {
            let pulse = pulses[lane];
            let lanes = left & lanes_with(pulses, pulse);
            left &= !lanes;
            let to = span.from.saturating_add(pulse as u32);
            push_over(levels, echo.over, lanes, span.to, to)?;
        }
    }
    Ok(())
}

// The lanes that have this number.
fn lanes_with(numbers: [u16; 64], number: u16) -> u64 {
    let mut lanes = 0;
    for lane in 0..64 {
        if numbers[lane] == number {
            lanes |= only(lane as u32);
        }
    }
    lanes
}

// That no pulse is over, if it is so of some tick.
fn push_over(
    levels: &mut Vec<Level64>,
    gate: GateId,
    lanes: u64,
    from: u32,
    to: u32,
) -> Result<(), Memory> {
    if to <= from {
        return Ok(());
    }
    push(
        levels,
        Level64 {
            gate,
            on: false,
            lanes,
            from,
            to,
        },
    )
}
