//! The inception and the deadline.

ghost use Rattle.std.specs.Prelude.{◌≡◌, ◌++◌, IfOk, OnOk, option_map};
ghost use Rattle.draw_run.specs.layout.Marks.{deadline_of, inception_of, view_of, flag, marks};
ghost use Rattle.draw_run.specs.layout.Marks.{deadline_look, inception_look, flags};
ghost use Rattle.draw_run.specs.layout.Words.{said, tick_end_said, tick_said};
ghost use Rattle.draw_shapes.specs.Seen.{figures_seen};

use crate::diagram::Diagram;
use crate::layout::scale::{Scale, x_of};
use crate::layout::words::Words;
use draw_shapes::{Class, Figure, put_line, put_text};
use model_line::{Line, Memory};
use std::alloc::Global;

// A tick that is marked by a line: where the line stands, and what is said of it.
#[derive(Drop)]
struct Mark {
    x: u32,
    said: Words,
}

// How a mark looks: its line, and its words at the right and at the left of it.
#[derive(Clone, Copy)]
struct Look {
    line: Class,
    right: Class,
    left: Class,
}

/// Appends the line of the inception, at the beginning of its tick, and that of the deadline, at
/// the end of its tick. Their words stand side by side above the rows: those of the earlier line
/// end at it, those of the later one begin at it, so neither meets the other or a line.
pub fn put_marks(
    alloc: Global,
    figures: &mut Vec<Figure>,
    of: &Line,
    scale: Scale,
    diagram: &Diagram,
    top: u32,
    bottom: u32,
) -> Result<(), Memory>
    ensures { OnOk result (figures_seen figures.new.items
        ≡ figures_seen figures.old.items ++ marks of.now scale diagram.now top bottom) }
{
    let inception = inception_mark(alloc, of, scale, diagram)?;
    let deadline = deadline_mark(alloc, of, scale, diagram)?;
    put_both(figures, inception, deadline, top, bottom)
}

fn put_both(
    figures: &mut Vec<Figure>,
    inception: Option<Mark>,
    deadline: Option<Mark>,
    top: u32,
    bottom: u32,
) -> Result<(), Memory>
    ensures { OnOk result (figures_seen figures.new.items
        ≡ figures_seen figures.old.items
        ++ flags top bottom (option_map view_of inception) (option_map view_of deadline)) }
{
    match (inception, deadline) {
        (None, None) => Ok(()),
        (Some(fault), None) => put_inception(figures, fault, false, top, bottom),
        (None, Some(due)) => put_deadline(figures, due, false, top, bottom),
        (Some(fault), Some(due)) => {
            let (fault_x, due_x) = (fault.x, due.x);
            put_inception(figures, fault, fault_x <= due_x, top, bottom)?;
            put_deadline(figures, due, due_x < fault_x, top, bottom)
        }
    }
}

// The mark of the inception.
fn inception_mark(
    alloc: Global,
    of: &Line,
    scale: Scale,
    diagram: &Diagram,
) -> Result<Option<Mark>, Memory>
    ensures { IfOk result (λ mark.
        option_map view_of mark ≡ inception_of of.now scale diagram.now) }
{
    let Some(t) = diagram.inception else {
        return Ok(None);
    };
    let said = at_tick(Words::new(alloc).word(b"fault ")?, of, t)?;
    Ok(Some(Mark {
        x: x_of(scale, t),
        said,
    }))
}

// The mark of the deadline.
fn deadline_mark(
    alloc: Global,
    of: &Line,
    scale: Scale,
    diagram: &Diagram,
) -> Result<Option<Mark>, Memory>
    ensures { IfOk result (λ mark.
        option_map view_of mark ≡ deadline_of of.now scale diagram.now) }
{
    let Some(t) = diagram.deadline else {
        return Ok(None);
    };
    let said = at_end_of_tick(Words::new(alloc).word(b"deadline ")?, of, t)?;
    Ok(Some(Mark {
        x: x_of(scale, t.saturating_add(1)),
        said,
    }))
}

// And a tick, with its milliseconds.
fn at_tick(words: Words, of: &Line, t: u32) -> Result<Words, Memory>
    ensures { IfOk result (λ all. said all ≡ said words ++ tick_said of.now.tick_us t) }
{
    words
        .number(t as u64)?
        .word(b" (")?
        .milliseconds((t as u64).saturating_mul(of.tick_us as u64))?
        .word(b" ms)")
}

// And a tick, with the milliseconds at which it ends.
#[tactic(auto, unfolding(crate::specs::layout::Words::tick_end_said))]
fn at_end_of_tick(words: Words, of: &Line, t: u32) -> Result<Words, Memory>
    ensures { IfOk result (λ all. said all ≡ said words ++ tick_end_said of.now.tick_us t) }
{
    words
        .number(t as u64)?
        .word(b" (ends at ")?
        .milliseconds((t as u64 + 1).saturating_mul(of.tick_us as u64))?
        .word(b" ms)")
}

fn put_inception(
    figures: &mut Vec<Figure>,
    mark: Mark,
    is_left: bool,
    top: u32,
    bottom: u32,
) -> Result<(), Memory>
    ensures { OnOk result (figures_seen figures.new.items
        ≡ figures_seen figures.old.items
        ++ flag inception_look is_left top bottom (view_of mark)) }
{
    let look = Look {
        line: Class::Inception,
        right: Class::Quiet,
        left: Class::QuietEnd,
    };
    put_flag(figures, look, mark, is_left, top, bottom)
}

fn put_deadline(
    figures: &mut Vec<Figure>,
    mark: Mark,
    is_left: bool,
    top: u32,
    bottom: u32,
) -> Result<(), Memory>
    ensures { OnOk result (figures_seen figures.new.items
        ≡ figures_seen figures.old.items
        ++ flag deadline_look is_left top bottom (view_of mark)) }
{
    let look = Look {
        line: Class::Deadline,
        right: Class::Due,
        left: Class::DueEnd,
    };
    put_flag(figures, look, mark, is_left, top, bottom)
}

// A mark's line, and its words beside the upper end of it: at its left or at its right.
fn put_flag(
    figures: &mut Vec<Figure>,
    look: Look,
    mark: Mark,
    is_left: bool,
    top: u32,
    bottom: u32,
) -> Result<(), Memory>
    ensures { OnOk result (figures_seen figures.new.items
        ≡ figures_seen figures.old.items ++ flag look is_left top bottom (view_of mark)) }
{
    let upper = top.saturating_sub(170);
    let y = upper.saturating_add(100);
    put_line(figures, look.line, (mark.x, upper), (mark.x, bottom))?;
    if is_left {
        put_text(
            figures,
            look.left,
            (mark.x.saturating_sub(50), y),
            mark.said.bytes,
        )?;
    } else {
        put_text(
            figures,
            look.right,
            (mark.x.saturating_add(50), y),
            mark.said.bytes,
        )?;
    }
    Ok(())
}
