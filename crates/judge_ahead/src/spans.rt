//! The spans of a stretch of which one side is just held.

ghost use Rattle.std.specs.Prelude.{◌<◌, ◌≤◌};

use crate::bits::{first, only};
use crate::cuts::Cut;
use crate::lists::push;
use crate::outlook::Outlook64;
use crate::run::look_ahead;
use crate::scene::Scene;
use crate::span::{Assumed, Span};
use crate::views::Views64;
use model_line::Memory;
use run_signal::Within;
use std::alloc::Global;

/// Spans to tell apart, and how many views were looked at to find them.
#[derive(Drop)]
pub struct Spans {
    pub cuts: Vec<Cut>,
    pub analyses: u32,
}

// how many views a run looks at
const LANES: u32 = 64;

// how many of them serve one search
const TRIES: u32 = 16;

// how many runs one search takes at most
const RUNS: u32 = 14;

/// Looks for the spans of a view that end with one of these stretches and of which one side is just
/// held: the longest that is held where the echo is interrupted, and the shortest that is where it is
/// wanted throughout. More is assumed of a longer one that is wanted throughout, and less of one that
/// is interrupted.
pub fn spans_of(
    alloc: Global,
    scene: &Scene,
    ends: &[Within],
    assumed: &[Assumed],
    stretches: &[Span],
) -> Result<Spans, Memory> {
    let mut reaches = Vec::new(alloc);
    for stretch in stretches {
        push(&mut reaches, Reach::new(*stretch, false))?;
        push(&mut reaches, Reach::new(*stretch, true))?;
    }
    let mut analyses = 0u32;
    for _run in 0..RUNS {
        let count = searched(&reaches);
        if count > 0 {
            let most = TRIES.min(LANES / count);
            let lanes = narrow(alloc, scene, ends, assumed, most, &mut reaches)?;
            analyses = analyses.saturating_add(lanes);
        }
    }
    let cuts = found_of(alloc, &reaches)?;
    Ok(Spans { cuts, analyses })
}

/// A search for the length of a span.
#[derive(Clone, Copy)]
struct Reach {
    stretch: Span,
    throughout: bool,
    /// The length at which it is held that is nearest to those at which it is not; none of the
    /// stretch at first.
    held: u32,
    /// The nearest length at which it is not.
    open: u32,
}

impl Reach {
    // Nothing is known.
    fn new(stretch: Span, throughout: bool) -> Reach {
        let past = stretch.ticks().saturating_add(1);
        let (held, open) = if throughout { (past, 0) } else { (0, past) };
        Reach {
            stretch,
            throughout,
            held,
            open,
        }
    }

    // How many lengths are still between.
    fn left(self) -> u32 {
        self.held.abs_diff(self.open).saturating_sub(1)
    }

    // Whether some length of the stretch is known to be held.
    fn is_found(self) -> bool {
        self.held > 0 && self.held <= self.stretch.ticks()
    }

    // How many lengths a run looks at, where it may look at so many: at first at one alone.
    fn tries(self, most: u32) -> u32 {
        let most = if self.is_found() { most.max(1) } else { 1 };
        self.left().min(most)
    }

    // The length at one of so many places between, from the held side on; at first the one that is
    // held if any is.
    fn length_at(self, place: u32, tries: u32) -> u32 {
        let steps = if self.is_found() {
            let between = self.left().saturating_add(1);
            part(between, place.saturating_add(1), tries.saturating_add(1))
        } else {
            1
        };
        if self.held < self.open {
            self.held.saturating_add(steps)
        } else {
            self.held.saturating_sub(steps)
        }
    }

    // What is assumed at a length.
    fn assumed(self, ticks: u32) -> Assumed {
        self.stretch.last(ticks).wanted(self.throughout)
    }

    // Takes what is seen of the lengths that a run looked at, from a lane on. Of those behind the
    // first that is not held nothing is asked.
    fn take(&mut self, scene: &Scene, outlook: &Outlook64, lane: u32, most: u32) -> u32 {
        let before = *self;
        let tries = before.tries(most);
        for place in 0..tries {
            let at = lane.saturating_add(place);
            if at < 64 {
                let ticks = before.length_at(place, tries);
                if !outlook.is_met(scene, at) {
                    self.open = ticks;
                    return lane.saturating_add(tries);
                }
                self.held = ticks;
            }
        }
        lane.saturating_add(tries)
    }
}

// So many of equal parts of a whole.
fn part(whole: u32, count: u32, parts: u32) -> u32 {
    whole.saturating_mul(count) / parts.max(1)
}

// How many searches go on.
fn searched(reaches: &[Reach]) -> u32 {
    let mut count = 0u32;
    for reach in reaches {
        if reach.left() > 0 {
            count = count.saturating_add(1);
        }
    }
    count
}

// Looks at a few lengths of each search side by side, and takes what is seen. Tells how many.
fn narrow(
    alloc: Global,
    scene: &Scene,
    ends: &[Within],
    assumed: &[Assumed],
    most: u32,
    reaches: &mut Vec<Reach>,
) -> Result<u32, Memory> {
    let mut lanes = 0u32;
    for reach in reaches.as_slice() {
        lanes = lanes.saturating_add(reach.tries(most));
    }
    let mut views = Views64::bare(alloc, first(lanes));
    narrow_in(alloc, scene, ends, assumed, most, &mut views, reaches)?;
    Ok(lanes)
}

// Looks at them in these views.
fn narrow_in(
    alloc: Global,
    scene: &Scene,
    ends: &[Within],
    assumed: &[Assumed],
    most: u32,
    views: &mut Views64,
    reaches: &mut Vec<Reach>,
) -> Result<(), Memory> {
    views.begin_under(scene.line, ends, assumed)?;
    let mut lane = 0;
    for reach in reaches.as_slice() {
        lane = put_lengths(*reach, lane, most, views)?;
    }
    let outlook = look_ahead(alloc, scene, views)?;
    let mut lane = 0;
    for place in 0..reaches.len() {
        lane = reaches[place].take(scene, &outlook, lane, most);
    }
    Ok(())
}

// Puts the lengths of a search into lanes, from one on. Tells the next.
fn put_lengths(reach: Reach, lane: u32, most: u32, views: &mut Views64) -> Result<u32, Memory> {
    let tries = reach.tries(most);
    for place in 0..tries {
        let at = lane.saturating_add(place);
        if at < 64 {
            let ticks = reach.length_at(place, tries);
            views.assume(only(at), reach.assumed(ticks))?;
        }
    }
    Ok(lane.saturating_add(tries))
}

// The spans that were found.
fn found_of(alloc: Global, reaches: &[Reach]) -> Result<Vec<Cut>, Memory> {
    let mut cuts = Vec::new(alloc);
    for reach in reaches {
        if reach.is_found() {
            push(&mut cuts, Cut::Wanted(reach.stretch.last(reach.held)))?;
        }
    }
    Ok(cuts)
}
