//! The time axis.

ghost use Rattle.std.specs.Prelude.{◌≡◌, ◌≤◌, ◌<◌, ◌+◌, ◌++◌, ◌∷◌, [], OnOk, decimal};
ghost use Rattle.model_history.specs.Each.{each_below};
ghost use Rattle.draw_run.specs.layout.Axis.{axis, units, round_tick, tick_drawn, cut};
ghost use Rattle.draw_run.specs.layout.Axis.{left_cut, right_cut};
ghost use Rattle.draw_run.specs.layout.Scale.{step_of, more};
ghost use Rattle.draw_run.specs.layout.Words.{microseconds_of, milliseconds_said};
ghost use Rattle.draw_shapes.specs.Seen.{figures_seen, text};

use crate::layout::scale::{RIGHT, Scale, label_step, x_of};
use crate::layout::words::Words;
use draw_shapes::{Class, Figure, put_line, put_text, put_words};
use model_line::{Line, Memory};
use std::alloc::Global;

/// How much lies below the rows for the axis.
pub const AXIS_HEIGHT: u32 = 420;

/// Appends lines at round ticks from the top to the bottom of the rows, and below them the ticks
/// and the milliseconds; two strokes where the axis is cut.
pub fn put_axis(
    alloc: Global,
    figures: &mut Vec<Figure>,
    of: &Line,
    scale: Scale,
    top: u32,
    bottom: u32,
) -> Result<(), Memory>
    ensures { OnOk result (figures_seen figures.new.items
        ≡ figures_seen figures.old.items ++ axis of.now scale top bottom) }
{
    put_units(alloc, figures, scale, bottom)?;
    put_ticks(alloc, figures, of, scale, top, bottom)?;
    if scale.window.first > 0 {
        put_cut(figures, scale.left, bottom)?;
    }
    if scale.window.last < of.horizon - 1 {
        put_cut(figures, RIGHT, bottom)?;
    }
    Ok(())
}

// What the two rows of numbers are, at the left of the longest number that may stand at the axis's
// left end.
fn put_units(
    alloc: Global,
    figures: &mut Vec<Figure>,
    scale: Scale,
    bottom: u32,
) -> Result<(), Memory>
    ensures { OnOk result (figures_seen figures.new.items
        ≡ figures_seen figures.old.items ++ units scale bottom) }
{
    let x = scale.left.saturating_sub(520);
    let (upper, lower) = (bottom.saturating_add(170), bottom.saturating_add(330));
    put_words(alloc, figures, Class::End, (x, upper), b"tick")?;
    Ok(put_words(alloc, figures, Class::QuietEnd, (x, lower), b"ms")?)
}

// The ticks that are shown and round.
fn put_ticks(
    alloc: Global,
    figures: &mut Vec<Figure>,
    of: &Line,
    scale: Scale,
    top: u32,
    bottom: u32,
) -> Result<(), Memory>
    ensures { OnOk result (figures_seen figures.new.items
        ≡ figures_seen figures.old.items
        ++ each_below (more scale.window.last 1) (round_tick of.now scale top bottom)) }
{
    let step = label_step(scale, of.tick_us);
    for t in 0..scale.window.last.saturating_add(1) {
        put_if_round(alloc, figures, of, scale, step, t, top, bottom)?;
    }
    Ok(())
}

// The tick, if it is shown and round.
fn put_if_round(
    alloc: Global,
    figures: &mut Vec<Figure>,
    of: &Line,
    scale: Scale,
    step: u32,
    t: u32,
    top: u32,
    bottom: u32,
) -> Result<(), Memory>
    requires step { step ≡ step_of scale of.now.tick_us }
    requires some { 1 ≤ step }
    ensures { OnOk result (figures_seen figures.new.items
        ≡ figures_seen figures.old.items ++ round_tick of.now scale top bottom t) }
{
    if scale.window.first <= t && t % step == 0 {
        put_tick(alloc, figures, of, scale, t, top, bottom)?;
    }
    Ok(())
}

// A line at a tick, and its two numbers.
fn put_tick(
    alloc: Global,
    figures: &mut Vec<Figure>,
    of: &Line,
    scale: Scale,
    t: u32,
    top: u32,
    bottom: u32,
) -> Result<(), Memory>
    ensures { OnOk result (figures_seen figures.new.items
        ≡ figures_seen figures.old.items ++ tick_drawn of.now scale top bottom t) }
{
    let x = x_of(scale, t);
    put_line(figures, Class::Grid, (x, top), (x, bottom))?;
    put_number(alloc, figures, (x, bottom.saturating_add(170)), t)?;
    let at = (x, bottom.saturating_add(330));
    put_milliseconds(alloc, figures, at, of.tick_us, t)
}

fn put_number(
    alloc: Global,
    figures: &mut Vec<Figure>,
    at: (u32, u32),
    t: u32,
) -> Result<(), Memory>
    ensures { OnOk result (figures_seen figures.new.items
        ≡ figures_seen figures.old.items ++ text Class.Middle at.0 at.1 (decimal t) ∷ []) }
{
    let tick = Words::new(alloc).tick(t)?;
    put_text(figures, Class::Middle, at, tick.bytes)?;
    Ok(())
}

fn put_milliseconds(
    alloc: Global,
    figures: &mut Vec<Figure>,
    at: (u32, u32),
    tick_us: u32,
    t: u32,
) -> Result<(), Memory>
    ensures { OnOk result (figures_seen figures.new.items
        ≡ figures_seen figures.old.items ++ text Class.QuietMiddle at.0 at.1
        (milliseconds_said (microseconds_of tick_us t)) ∷ []) }
{
    let ms = Words::new(alloc).milliseconds((t as u64).saturating_mul(tick_us as u64))?;
    put_text(figures, Class::QuietMiddle, at, ms.bytes)?;
    Ok(())
}

// Two slanted strokes through the foot of the axis.
fn put_cut(figures: &mut Vec<Figure>, x: u32, bottom: u32) -> Result<(), Memory>
    ensures { OnOk result (figures_seen figures.new.items
        ≡ figures_seen figures.old.items ++ cut x bottom) }
{
    let (upper, lower) = (bottom.saturating_sub(50), bottom.saturating_add(50));
    let before = (x.saturating_sub(50), x.saturating_sub(10));
    let behind = (x.saturating_add(10), x.saturating_add(50));
    put_line(figures, Class::Margin, (before.0, lower), (before.1, upper))?;
    put_line(figures, Class::Margin, (behind.0, lower), (behind.1, upper))?;
    Ok(())
}
