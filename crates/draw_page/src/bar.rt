//! A time as a bar: the declared interval in full, and on a thin one how far its ends can go.

ghost use Rattle.std.specs.Prelude.{◌≡◌, ◌≤◌, ◌++◌, IfOk, OnOk};
ghost use Rattle.draw_shapes.specs.Seen.{drawing_seen, figures_seen};
ghost use Rattle.draw_page.specs.Bars.{bar_drawing, bar_figures, bar_title, greatest_end};
ghost use Rattle.draw_page.specs.Bars.{place_of, reach_of};

use crate::page::Time;
use crate::words::{interval_words, words_of};
use draw_shapes::{Class, Drawing, Figure, Shape, put_line, put_rectangle};
use std::alloc::{AllocError, Global};

/// The greatest declared end, 1 at least.
pub fn greatest(times: &[Time]) -> u32
    ensures { result ≡ greatest_end times.now }
{
    match times {
        [] => 1,
        [time, rest @ ..] => time.high.max(greatest(rest)),
    }
}

/// How far the bars go: a quarter beyond the greatest declared end.
pub fn reach(times: &[Time]) -> u32
    ensures is { result ≡ reach_of times.now }
    ensures some { 1 ≤ result }
{
    let end = greatest(times);
    end.saturating_add(end / 4).max(1)
}

// Where a tick lies, in tenths of a pixel.
fn place(reach: u32, tick: u64) -> u32
    requires some { 1 ≤ reach }
    requires small { tick ≤ 10000000000 }
    ensures { result ≡ place_of reach tick }
{
    (tick * 10000 / reach as u64).min(10000) as u32
}

/// The bar of a time.
pub fn bar(alloc: Global, tick_us: u32, reach: u32, time: &Time) -> Result<Drawing, AllocError>
    requires { 1 ≤ reach }
    ensures { IfOk result (λ drawing.
        drawing_seen drawing ≡ bar_drawing tick_us reach time.now) }
{
    let mut figures = Vec::new(alloc);
    put_bar(&mut figures, reach, time)?;
    let mut shapes = Vec::new(alloc);
    shapes.push(Shape::Plain(figures))?;
    let title = title(alloc, tick_us, time)?;
    Ok(Drawing {
        title,
        height: 400,
        shapes,
    })
}

// Appends the line below, the thin bar and the full one.
fn put_bar(figures: &mut Vec<Figure>, reach: u32, time: &Time) -> Result<(), AllocError>
    requires { 1 ≤ reach }
    ensures { OnOk result (figures_seen figures.new.items
        ≡ figures_seen figures.old.items ++ bar_figures reach time.now) }
{
    let least = place(reach, time.low.saturating_sub(time.below.ticks) as u64);
    let most = place(reach, time.high as u64 + time.above.ticks as u64);
    let (low, high) = (
        place(reach, time.low as u64),
        place(reach, time.high as u64),
    );
    put_line(figures, Class::Base, (0, 200), (10000, 200))?;
    let thin = (most.saturating_sub(least), 120);
    put_rectangle(figures, Class::KeyHatch, (least, 140), thin)?;
    let full = (high.saturating_sub(low).max(40), 400);
    put_rectangle(figures, Class::KeyOn, (low, 0), full)
}

fn title(alloc: Global, tick_us: u32, time: &Time) -> Result<Vec<u8>, AllocError>
    ensures { IfOk result (λ text. text.items ≡ bar_title tick_us time.now) }
{
    let interval = interval_words(alloc, tick_us, time.low, time.high)?;
    words_of(
        alloc,
        &[time.name.as_slice(), b", declared ", interval.as_slice()],
    )
}
