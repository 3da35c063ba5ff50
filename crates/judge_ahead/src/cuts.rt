//! Where a view is cut in two.

ghost use Rattle.std.specs.Prelude.{◌<◌, ◌≤◌, ◌+◌, length};
ghost use Rattle.model_line.specs.Parameters.{param_count};

use crate::bits::{first, only};
use crate::lists::push;
use crate::outlook::{Outlook64, Score};
use crate::run::look_ahead;
use crate::scene::Scene;
use crate::span::{Assumed, Span};
use crate::views::{Views64, ends_at};
use model_line::Memory;
use run_signal::Within;
use std::alloc::Global;

/// A cut of a view in two: up to `mid` of a parameter, and from there on; or two cases, of an echo
/// that is wanted throughout a span, and of one that is not at some instant of it.
#[derive(Clone, Copy)]
pub enum Cut {
    Parted { param: u32, mid: u32 },
    Wanted(Span),
}

/// What is seen of one view.
#[derive(Drop)]
pub struct Side {
    pub met: bool,
    pub score: Score,
    /// The first stretches through which it is not known whether a terminal wants an echo.
    pub stretches: Vec<Span>,
}

/// A cut with its two sides.
#[derive(Drop)]
pub struct Chosen {
    pub cut: Cut,
    pub first: Side,
    pub second: Side,
}

// how many cuts a run looks at
const BLOCK: usize = 32;

/// Looks at one view: an interval for each parameter, and what is assumed.
pub fn side_of(
    alloc: Global,
    scene: &Scene,
    ends: &[Within],
    assumed: &[Assumed],
) -> Result<Side, Memory> {
    let outlook = look_at(alloc, scene, ends, assumed, 1, &[])?;
    side_in(alloc, scene, &outlook, 0)
}

/// The cuts of a view: the last half, the whole and the last tick of each of these stretches, and the
/// halves of each parameter that is no delay, is read on both rails and has a number between its ends.
pub fn cuts_of(
    alloc: Global,
    scene: &Scene,
    ends: &[Within],
    stretches: &[Span],
) -> Result<Vec<Cut>, Memory> {
    let mut cuts = Vec::new(alloc);
    for stretch in stretches {
        push_spans(*stretch, &mut cuts)?;
    }
    for param in 0..scene.line.param_count() {
        if let Some(mid) = mid_of(scene, ends, param) {
            push(&mut cuts, Cut::Parted { param, mid })?;
        }
    }
    Ok(cuts)
}

// The spans of a stretch.
fn push_spans(stretch: Span, cuts: &mut Vec<Cut>) -> Result<(), Memory> {
    let ticks = stretch.ticks();
    push(cuts, Cut::Wanted(stretch.last(ticks - ticks / 2)))?;
    if ticks > 1 {
        push(cuts, Cut::Wanted(stretch))?;
        push(cuts, Cut::Wanted(stretch.last(1)))?;
    }
    Ok(())
}

// Where the halves of a parameter meet, if it is to be parted.
fn mid_of(scene: &Scene, ends: &[Within], param: u32) -> Option<u32>
    requires { param < param_count scene.now.line.now }
{
    let own = ends_at(ends, param);
    let (least, greatest) = (own.least(), own.greatest());
    let mid = least + greatest.saturating_sub(least) / 2;
    if least < mid && !scene.line.is_delay(param) && scene.reads.param(param).is_both() {
        Some(mid)
    } else {
        None
    }
}

/// Looks at both sides of each cut of a view, and chooses one, if one helps: the best span that
/// settles a side, else the least sum of scores. With `settling` only such a span is chosen.
pub fn choose(
    alloc: Global,
    scene: &Scene,
    ends: &[Within],
    assumed: &[Assumed],
    cuts: &[Cut],
    score: Score,
    settling: bool,
) -> Result<Option<Chosen>, Memory> {
    let mut outlooks = Vec::new(alloc);
    look_at_all(alloc, scene, ends, assumed, cuts, &mut outlooks)?;
    let best = best_of(scene, cuts, &outlooks, score, settling);
    chosen_at(alloc, scene, cuts, &outlooks, best)
}

// Looks at both sides of each cut, block by block.
fn look_at_all(
    alloc: Global,
    scene: &Scene,
    ends: &[Within],
    assumed: &[Assumed],
    cuts: &[Cut],
    outlooks: &mut Vec<Outlook64>,
) -> Result<(), Memory> {
    for block in 0..cuts.len() / BLOCK + 1 {
        let from = block * BLOCK;
        let to = cuts.len().min(from + BLOCK);
        let lanes = 2 * (to - from) as u32;
        push(
            outlooks,
            look_at(alloc, scene, ends, assumed, lanes, &cuts[from..to])?,
        )?;
    }
    Ok(())
}

// Which of them helps most.
fn best_of(
    scene: &Scene,
    cuts: &[Cut],
    outlooks: &[Outlook64],
    score: Score,
    settling: bool,
) -> Option<usize> {
    let best = best_settling(scene, cuts, outlooks, score);
    if best.is_none() && !settling {
        return least_sum(scene, cuts, outlooks, score);
    }
    best
}

// Looks at a view in so many lanes, with two of them for each of a few cuts.
fn look_at(
    alloc: Global,
    scene: &Scene,
    ends: &[Within],
    assumed: &[Assumed],
    lanes: u32,
    cuts: &[Cut],
) -> Result<Outlook64, Memory>
    requires { length cuts.now ≤ 32 }
{
    let mut views = Views64::bare(alloc, first(lanes));
    look_in(alloc, scene, ends, assumed, cuts, &mut views)
}

// Looks at it in these views.
fn look_in(
    alloc: Global,
    scene: &Scene,
    ends: &[Within],
    assumed: &[Assumed],
    cuts: &[Cut],
    views: &mut Views64,
) -> Result<Outlook64, Memory>
    requires { length cuts.now ≤ 32 }
{
    views.begin_under(scene.line, ends, assumed)?;
    for place in 0..cuts.len() {
        put_cut(ends, cuts[place], 2 * place as u32, views)?;
    }
    look_ahead(alloc, scene, views)
}

// Puts the sides of a cut into a lane and the next.
fn put_cut(ends: &[Within], cut: Cut, lane: u32, views: &mut Views64) -> Result<(), Memory>
    requires { lane + 1 < 64 }
{
    match cut {
        Cut::Parted { param, mid } => {
            let own = ends_at(ends, param);
            views.set(lane, param, own.least(), mid);
            views.set(lane + 1, param, mid, own.greatest());
            Ok(())
        }
        Cut::Wanted(span) => {
            views.assume(only(lane), span.wanted(true))?;
            views.assume(only(lane + 1), span.wanted(false))
        }
    }
}

/// A cut, and how far its sides are from meeting the obligation.
#[derive(Clone, Copy)]
struct Trial {
    cut: Cut,
    first: Score,
    second: Score,
    /// Whether one side meets it.
    meets: bool,
}

impl Trial {
    // How far the worse side is.
    fn worse(self) -> Score {
        self.first.max(self.second)
    }

    // Whether it is a span of which one side meets the obligation, and the other comes nearer.
    fn settles(self, score: Score) -> bool {
        self.meets && self.worse() < score && matches!(self.cut, Cut::Wanted(_))
    }

    // Whether it is a span of which a side comes no nearer: to tell it apart again would not end.
    fn is_idle(self, score: Score) -> bool {
        self.worse() >= score && matches!(self.cut, Cut::Wanted(_))
    }
}

// What was seen of a cut.
fn trial_at(scene: &Scene, cuts: &[Cut], outlooks: &[Outlook64], place: usize) -> Option<Trial> {
    let cut = cuts.get(place)?;
    let outlook = outlooks.get(place / BLOCK)?;
    let lane = lane_of(place);
    Some(Trial {
        cut: *cut,
        first: outlook.score(scene, lane),
        second: outlook.score(scene, lane + 1),
        meets: outlook.is_met(scene, lane) || outlook.is_met(scene, lane + 1),
    })
}

// The lane of a cut's first side.
fn lane_of(place: usize) -> u32
    ensures { result + 1 < 64 }
{
    2 * (place % BLOCK) as u32
}

// The first of those that settle a side whose other side is nearest.
fn best_settling(
    scene: &Scene,
    cuts: &[Cut],
    outlooks: &[Outlook64],
    score: Score,
) -> Option<usize> {
    let mut best = None;
    let mut nearest = score;
    for place in 0..cuts.len() {
        if let Some(trial) = trial_at(scene, cuts, outlooks, place) {
            if trial.settles(score) && trial.worse() < nearest {
                best = Some(place);
                nearest = trial.worse();
            }
        }
    }
    best
}

// The first of the least sum of scores, and of these of the nearest worse side.
fn least_sum(scene: &Scene, cuts: &[Cut], outlooks: &[Outlook64], score: Score) -> Option<usize> {
    let mut best: Option<usize> = None;
    let mut least = (Score::MET, Score::MET);
    for place in 0..cuts.len() {
        if let Some(trial) = trial_at(scene, cuts, outlooks, place) {
            let sum = (trial.first.plus(trial.second), trial.worse());
            if !trial.is_idle(score) && (best.is_none() || sum < least) {
                best = Some(place);
                least = sum;
            }
        }
    }
    best
}

// A cut with its sides, if there is one.
fn chosen_at(
    alloc: Global,
    scene: &Scene,
    cuts: &[Cut],
    outlooks: &[Outlook64],
    best: Option<usize>,
) -> Result<Option<Chosen>, Memory> {
    let Some(place) = best else {
        return Ok(None);
    };
    let (Some(cut), Some(outlook)) = (cuts.get(place), outlooks.get(place / BLOCK)) else {
        return Ok(None);
    };
    let lane = lane_of(place);
    let first = side_in(alloc, scene, outlook, lane)?;
    let second = side_in(alloc, scene, outlook, lane + 1)?;
    Ok(Some(Chosen {
        cut: *cut,
        first,
        second,
    }))
}

// What is seen of the view in a lane.
fn side_in(alloc: Global, scene: &Scene, outlook: &Outlook64, lane: u32) -> Result<Side, Memory>
    requires { lane < 64 }
{
    let mut side = Side {
        met: outlook.is_met(scene, lane),
        score: outlook.score(scene, lane),
        stretches: Vec::new(alloc),
    };
    outlook.push_unknown(scene, lane, &mut side.stretches)?;
    Ok(side)
}
