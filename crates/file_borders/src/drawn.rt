//! The borders and spans of a fault.

ghost use Rattle.std.specs.Prelude.{◌≡◌, ◌≤◌, ◌+◌, get_or, length, map, IfOk, IsTrue, OnOk};
ghost use Rattle.std.specs.List.{list_all, list_any};
ghost use Rattle.file_study.specs.study.Faults.{stage_values};
ghost use Rattle.file_borders.specs.Drawn.{behind as behind_of, borders_of, drawing, drawing_of, extended as extended_of};
ghost use Rattle.file_borders.specs.Drawn.{first_of as first_in, goes_on as goes_on_from, joined, later_in, least_sum};
ghost use Rattle.file_borders.specs.Drawn.{with_shown, with_stage};
ghost use Rattle.file_borders.specs.Loose.{comes_in_time};

use file_study::study::{Shown, Stage};
use model_borders::LooseSpan;
use model_line::Memory;
use std::alloc::Global;

/// Where a border stands: so many ticks behind tick 0, and the first so many of the times that are not known.
#[derive(Clone, Copy)]
pub struct At {
    pub ticks: u16,
    pub lengths: u32,
}

/// Borders by where they stand, and spans by the numbers of their borders.
#[derive(Drop)]
pub struct Drawn {
    pub borders: Vec<At>,
    pub spans: Vec<LooseSpan>,
}

/// Those of stages that begin at a start, the first border.
pub(crate) fn draw(alloc: Global, start: u32, stages: &[Stage]) -> Result<Drawn, Memory>
    requires ticks { start + least_sum (map stage_values stages.now) ≤ 4000 }
    requires borders { borders_of (map stage_values stages.now) ≤ 99 }
    requires shown { IsTrue (list_all comes_in_time (map stage_values stages.now)) }
    ensures { IfOk result (λ d. drawing d ≡ drawing_of start (map stage_values stages.now)) }
{
    let mut at = At {
        ticks: start as u16,
        lengths: 0,
    };
    let mut all = Drawn {
        borders: Vec::new(alloc),
        spans: Vec::new(alloc),
    };
    all.borders.push(at)?;
    let mut from = 0;
    for stage in stages {
        let to = all.borders.len() as u32;
        push_stage(alloc, &mut all, at, from, stage)?;
        at = behind(at, stage);
        from = to;
    }
    Ok(all)
}

// The end of a stage that begins there.
fn behind(at: At, stage: &Stage) -> At
    requires ticks { at.ticks + first_in (stage_values stage.now) ≤ 4000 }
    requires lengths { at.lengths ≤ 100 }
    ensures { result ≡ behind_of at (stage_values stage.now) }
{
    if stage.between {
        At {
            ticks: at.ticks,
            lengths: at.lengths + 1,
        }
    } else {
        At {
            ticks: (at.ticks as u32 + first_of(&stage.lasts)) as u16,
            lengths: at.lengths,
        }
    }
}

/// The first of some numbers of ticks; 0 where there is none.
pub(crate) fn first_of(ticks: &[u32]) -> u32
    ensures { result ≡ get_or ticks.now 0 0 }
{
    match ticks.first() {
        Some(first) => *first,
        None => 0,
    }
}

// Adds what a stage shows, which begins at the border of that number, and its end.
fn push_stage(
    alloc: Global,
    all: &mut Drawn,
    at: At,
    from: u32,
    stage: &Stage,
) -> Result<(), Memory>
    requires ticks { at.ticks + first_in (stage_values stage.now) ≤ 4000 }
    requires lengths { at.lengths ≤ 100 }
    requires borders { length all.now.borders.items + (later_in stage.now.shows.items + 1) ≤ 100 }
    requires shown { IsTrue (comes_in_time (stage_values stage.now)) }
    ensures { OnOk result (drawing all.new ≡ with_stage at from (stage_values stage.now) (drawing all.old)) }
{
    let to = all.borders.len() as u32;
    all.borders.push(behind(at, stage))?;
    for shown in &stage.shows {
        push_shown(alloc, all, at, from, to, shown)?;
    }
    Ok(())
}

// Adds what is seen from a stage's begin on, or from so many ticks later, to its end.
fn push_shown(
    alloc: Global,
    all: &mut Drawn,
    at: At,
    from: u32,
    to: u32,
    shown: &Shown,
) -> Result<(), Memory>
    requires ticks { at.ticks + shown.now.after ≤ 4000 }
    requires borders { length all.now.borders.items ≤ 100 }
    ensures { OnOk result (drawing all.new ≡ with_shown at from to shown.now (drawing all.old)) }
{
    let begin = if shown.after == 0 {
        from
    } else {
        all.borders.len() as u32
    };
    if shown.after != 0 {
        all.borders.push(At {
            ticks: (at.ticks as u32 + shown.after) as u16,
            lengths: at.lengths,
        })?;
    }
    let new = LooseSpan {
        what: shown.what,
        from: begin,
        to,
    };
    join(alloc, &mut all.spans, new)
}

// Adds a span, or extends those that it goes on.
fn join(alloc: Global, spans: &mut Vec<LooseSpan>, new: LooseSpan) -> Result<(), Memory>
    ensures { OnOk result (spans.new.items ≡ joined new spans.old.items) }
{
    if some_goes_on(spans.as_slice(), new) {
        let all = all_extended(alloc, spans.as_slice(), new)?;
        *spans = all;
    } else {
        spans.push(new)?;
    }
    Ok(())
}

fn some_goes_on(spans: &[LooseSpan], new: LooseSpan) -> bool
    ensures { result ≡ list_any (goes_on_from new) spans.now }
{
    spans.iter().any(|old| goes_on(new, *old))
}

fn all_extended(
    alloc: Global,
    spans: &[LooseSpan],
    new: LooseSpan,
) -> Result<Vec<LooseSpan>, Memory>
    ensures { IfOk result (λ all. all.items ≡ map (extended_of new) spans.now) }
{
    let mut all = Vec::new(alloc);
    for old in spans {
        all.push(extended(new, *old))?;
    }
    Ok(all)
}

fn goes_on(new: LooseSpan, old: LooseSpan) -> bool
    ensures { result ≡ goes_on_from new old }
{
    old.what == new.what && old.to == new.from
}

fn extended(new: LooseSpan, old: LooseSpan) -> LooseSpan
    ensures { result ≡ extended_of new old }
{
    if goes_on(new, old) {
        LooseSpan {
            what: old.what,
            from: old.from,
            to: new.to,
        }
    } else {
        old
    }
}
