//! The time axis: where a tick lies, and which ticks are labelled. Lengths are tenths of a pixel.

ghost use Rattle.std.specs.Prelude.{◌≡◌, ◌≤◌, ◌+◌};
ghost use Rattle.draw_run.specs.layout.Scale.{first_with_room, has_room, length_of, letters_of};
ghost use Rattle.draw_run.specs.layout.Scale.{place_of, step_of, ticks_shown};

use crate::diagram::Window;
use itoa::Buffer;

/// The right end of the time axis. At its right stands what is said of a trip.
pub const RIGHT: u32 = 7500;

// How much of a line a letter of a label takes at most, and the room between two labels.
const LETTER: u64 = 80;

const ROOM: u64 = 160;

/// Where the time axis begins, behind the names, and the ticks that it shows.
#[derive(Clone, Copy)]
pub struct Scale {
    pub left: u32,
    pub window: Window,
}

// How long the axis is.
fn length_of(scale: Scale) -> u32
    ensures is { result ≡ length_of scale }
    ensures few { result ≤ 7500 }
{
    RIGHT.saturating_sub(scale.left)
}

/// Where tick t begins; ticks that are not shown lie at the axis's ends.
pub fn x_of(scale: Scale, t: u32) -> u32
    ensures { result ≡ place_of scale t }
{
    let length = length_of(scale) as u64;
    let past = t.saturating_sub(scale.window.first) as u64;
    let x = (past * length / ticks_shown(scale.window)).min(length);
    scale.left + x as u32
}

/// How many ticks are shown, at least 1.
pub fn ticks_shown(window: Window) -> u64
    ensures is { result ≡ ticks_shown window }
    ensures some { 1 ≤ result }
    ensures few { result ≤ 4294967296 }
{
    (window.last.saturating_sub(window.first) as u64) + 1
}

/// How many ticks lie from one label to the next: a round number, at which labels have room.
#[tactic(auto, unfolding(crate::specs::layout::Scale::step_of))]
pub fn label_step(scale: Scale, tick_us: u32) -> u32
    ensures is { result ≡ step_of scale tick_us }
    ensures some { 1 ≤ result }
{
    let steps: [u32; 12] = [1, 2, 5, 10, 20, 50, 100, 200, 500, 1000, 2000, 5000];
    first_with_room(scale, tick_us, &steps)
}

// The first of these steps at which labels have room.
fn first_with_room(scale: Scale, tick_us: u32, steps: &[u32]) -> u32
    ensures { result ≡ first_with_room scale tick_us steps.now }
{
    match steps {
        [] => 10000,
        [step, rest @ ..] => {
            if has_room(scale, tick_us, *step) {
                *step
            } else {
                first_with_room(scale, tick_us, rest)
            }
        }
    }
}

// Whether labels stay apart at this step.
fn has_room(scale: Scale, tick_us: u32, step: u32) -> bool
    ensures { result ≡ has_room scale tick_us step }
{
    let apart = longest_label(scale.window, tick_us)
        .saturating_mul(LETTER)
        .saturating_add(ROOM);
    let length = length_of(scale) as u64;
    apart.saturating_mul(ticks_shown(scale.window)) <= step as u64 * length
}

// How many letters the milliseconds of a tick that is shown have at most: with parts of a
// millisecond a point and three digits more. The tick's own number has no more.
fn longest_label(window: Window, tick_us: u32) -> u64
    ensures is { result ≡ letters_of window tick_us }
    ensures few { result ≤ 100 }
{
    let last = (window.last as u64).saturating_mul(tick_us as u64);
    let digits = Buffer::new().format(last / 1000).len() as u64;
    if tick_us % 1000 == 0 {
        digits
    } else {
        digits.saturating_add(4)
    }
}
