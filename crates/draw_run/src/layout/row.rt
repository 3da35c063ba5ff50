//! A row of a diagram.

ghost use Rattle.std.specs.Prelude.{◌≡◌, ◌≤◌, ◌++◌, ◌∷◌, [], IfOk, OnOk};
ghost use Rattle.draw_run.specs.{layout.Scale.place_of, layout.Words.said};
ghost use Rattle.draw_run.specs.layout.Rows.{bar_height, first_mark_said, marks_said, row_name};
ghost use Rattle.draw_run.specs.layout.Rows.{other_marks_said, role_home, role_name, step_mark, step_marks};
ghost use Rattle.draw_run.specs.layout.Rows.{others_said, terminal_of, value_word, stretch_said};
ghost use Rattle.draw_run.specs.layout.Rows.{stretches_said};
ghost use Rattle.draw_run.specs.layout.Rows.{row_title, bar_if_any, bars, row_figures, row_shape};
ghost use Rattle.draw_shapes.specs.Seen.{figures_seen, shape_seen};
ghost use Rattle.model_line.specs.Channels.{from_of};
ghost use Rattle.model_line.specs.NamesByNumber.{terminal_name};

use crate::diagram::{Row, Stretch, Trace, is_off};
use crate::layout::bar::bar_of;
use crate::layout::scale::{RIGHT, Scale, x_of};
use crate::layout::words::Words;
use draw_shapes::{Class, Figure, Shape, put_line, put_rectangle, put_text};
use model_line::{Line, Memory, element_word, name_of_terminal};
use model_plain::{Role, receiver};
use run_signal::Tern;
use std::alloc::Global;

// How high the bars of a row are.
fn bar_height(trace: Trace) -> u32
    ensures { result ≡ bar_height trace }
{
    match trace {
        Trace::Logic(_, _) => 110,
        Trace::Key(_) | Trace::Trip(_) => 160,
        Trace::Seen(_) | Trace::Lost(_) => 90,
    }
}

/// The name of a row within its terminal.
pub fn row_name(alloc: Global, of: &Line, trace: Trace) -> Result<Words, Memory>
    ensures { IfOk result (λ words. said words ≡ row_name of.now trace) }
{
    name_behind(Words::new(alloc), of, trace)
}

// And the name of a row within its terminal.
fn name_behind(words: Words, of: &Line, trace: Trace) -> Result<Words, Memory>
    ensures { IfOk result (λ all. said all ≡ said words ++ row_name of.now trace) }
{
    match trace {
        Trace::Seen(place) => two_words(words, b"sees ", element_word(place.element)),
        Trace::Lost(channel) => two_words(words, b"lost from ", sender_name(of, channel)),
        Trace::Logic(role, _) => role_name(words, of, role),
        Trace::Key(_) => words.word(b"key"),
        Trace::Trip(_) => words.word(b"trip"),
    }
}

// Appends the name of a gate's row within its terminal.
fn role_name(words: Words, of: &Line, role: Role) -> Result<Words, Memory>
    ensures { IfOk result (λ all. said all ≡ said words ++ role_name of.now role) }
{
    match role {
        Role::Seen(place) => two_words(words, b"sees ", element_word(place.element)),
        Role::Timed(place) => two_words(words, b"timed ", element_word(place.element)),
        Role::Lost(c) => two_words(words, b"lost from ", sender_name(of, c)),
        Role::Raw(c) => two_words(words, b"arrives from ", sender_name(of, c)),
        Role::Received(c) => two_words(words, b"receives from ", sender_name(of, c)),
        Role::Window(c) => two_words(words, b"window from ", sender_name(of, c)),
        Role::Lockout(c) => two_words(words, b"lockout from ", sender_name(of, c)),
        Role::Guard(_) => words.word(b"guard"),
        Role::Coordination(_) => words.word(b"coordination"),
        Role::Echo(_) => words.word(b"echo"),
        Role::Permission(_) => words.word(b"permission"),
        Role::AnyReceived(_) => words.word(b"receives"),
    }
}

fn two_words(words: Words, first: &[u8], second: &[u8]) -> Result<Words, Memory>
    ensures { IfOk result (λ all. said all ≡ said words ++ (first.now ++ second.now)) }
{
    words.word(first)?.word(second)
}

// The terminal of a role.
fn role_home(of: &Line, role: Role) -> u32
    ensures { result ≡ role_home of.now role }
{
    match role {
        Role::Seen(place) | Role::Timed(place) => place.terminal,
        Role::Lost(c) | Role::Raw(c) | Role::Received(c) | Role::Window(c) | Role::Lockout(c) =>
            receiver(of, c),
        Role::Guard(k)
        | Role::Coordination(k)
        | Role::Echo(k)
        | Role::Permission(k)
        | Role::AnyReceived(k) => k,
    }
}

fn sender_name<'a>(of: &'a Line, channel: u32) -> &'a [u8]
    ensures { result.now ≡ terminal_name of.now (from_of of.now.channels.items channel) }
{
    let sender = match of.channels.as_slice().get(channel as usize) {
        Some(channel) => channel.from,
        None => 0,
    };
    name_of_terminal(of, sender)
}

/// The terminal of a row.
pub fn terminal_of(of: &Line, trace: Trace) -> u32
    ensures { result ≡ terminal_of of.now trace }
{
    match trace {
        Trace::Seen(place) => place.terminal,
        Trace::Key(terminal) | Trace::Trip(terminal) => terminal,
        Trace::Logic(role, _) => role_home(of, role),
        Trace::Lost(channel) => match of.channels.as_slice().get(channel as usize) {
            Some(channel) => channel.to,
            None => 0,
        },
    }
}

/// A row: its name, its base line and a bar for each stretch that is not off, whose lower edge is
/// at `base`, and its marks. Its title says all stretches and marks.
#[tactic(auto, unfolding(crate::specs::layout::Rows::row_shape))]
pub fn drawn_row(
    alloc: Global,
    of: &Line,
    scale: Scale,
    row: &Row,
    base: u32,
) -> Result<Shape, Memory>
    ensures { IfOk result (λ shape. shape_seen shape ≡ row_shape of.now scale base row.now) }
{
    let title = row_title(alloc, of, row)?;
    let figures = row_figures(alloc, of, scale, row, base)?;
    Ok(Shape::Titled(title.bytes, figures))
}

fn row_figures(
    alloc: Global,
    of: &Line,
    scale: Scale,
    row: &Row,
    base: u32,
) -> Result<Vec<Figure>, Memory>
    ensures { IfOk result (λ figures.
        figures_seen figures.items ≡ row_figures of.now scale base row.now) }
{
    let mut figures = Vec::new(alloc);
    put_row(alloc, &mut figures, of, scale, row, base)?;
    Ok(figures)
}

fn put_row(
    alloc: Global,
    figures: &mut Vec<Figure>,
    of: &Line,
    scale: Scale,
    row: &Row,
    base: u32,
) -> Result<(), Memory>
    ensures { OnOk result (figures_seen figures.new.items
        ≡ figures_seen figures.old.items ++ row_figures of.now scale base row.now) }
{
    let name = row_name(alloc, of, row.trace)?;
    let at = (scale.left.saturating_sub(100), base.saturating_sub(10));
    put_text(figures, Class::End, at, name.bytes)?;
    put_line(figures, Class::Base, (scale.left, base), (RIGHT, base))?;
    put_bars(figures, scale, row.trace, row.stretches.as_slice(), base)?;
    put_step_marks(figures, scale, row.marks.as_slice(), base)
}

// Appends a bar for each stretch that is not off.
fn put_bars(
    figures: &mut Vec<Figure>,
    scale: Scale,
    trace: Trace,
    stretches: &[Stretch],
    base: u32,
) -> Result<(), Memory>
    ensures { OnOk result (figures_seen figures.new.items
        ≡ figures_seen figures.old.items ++ bars scale trace base stretches.now) }
{
    for stretch in stretches {
        put_bar(figures, scale, trace, stretch, base)?;
    }
    Ok(())
}

// Appends the bar of a stretch, if it is not off.
fn put_bar(
    figures: &mut Vec<Figure>,
    scale: Scale,
    trace: Trace,
    stretch: &Stretch,
    base: u32,
) -> Result<(), Memory>
    ensures { OnOk result (figures_seen figures.new.items
        ≡ figures_seen figures.old.items ++ bar_if_any scale trace base stretch.now) }
{
    if is_off(stretch.value) {
        return Ok(());
    }
    let height = bar_height(trace);
    let from = x_of(scale, stretch.from);
    let to = x_of(scale, stretch.to);
    let class = bar_of(trace, stretch.value).class();
    let corner = (from, base.saturating_sub(height));
    put_rectangle(figures, class, corner, (to.saturating_sub(from), height))?;
    Ok(())
}

// Appends a mark at each of these ticks.
fn put_step_marks(
    figures: &mut Vec<Figure>,
    scale: Scale,
    marks: &[u32],
    base: u32,
) -> Result<(), Memory>
    ensures { OnOk result (figures_seen figures.new.items
        ≡ figures_seen figures.old.items ++ step_marks scale base marks.now) }
{
    for mark in marks {
        put_step_mark(figures, scale, *mark, base)?;
    }
    Ok(())
}

fn put_step_mark(figures: &mut Vec<Figure>, scale: Scale, t: u32, base: u32) -> Result<(), Memory>
    ensures { OnOk result (figures_seen figures.new.items
        ≡ figures_seen figures.old.items ++ step_mark scale base t) }
{
    let corner = (x_of(scale, t).saturating_sub(10), base.saturating_sub(150));
    put_rectangle(figures, Class::Step, corner, (20, 150))?;
    Ok(())
}

// What a row says in words: `A trip: off 0 to 14, open 15 to 18, on 19 to 119`.
fn row_title(alloc: Global, of: &Line, row: &Row) -> Result<Words, Memory>
    ensures { IfOk result (λ title. said title ≡ row_title of.now row.now) }
{
    let title = Words::new(alloc)
        .word(name_of_terminal(of, terminal_of(of, row.trace)))?
        .word(b" ")?;
    let title = name_behind(title, of, row.trace)?;
    let title = stretches_said(title, row.stretches.as_slice())?;
    marks_said(title, row.marks.as_slice())
}

// And the steps of its channel's delay, if there are any.
fn marks_said(words: Words, marks: &[u32]) -> Result<Words, Memory>
    ensures { IfOk result (λ all. said all ≡ said words ++ marks_said marks.now) }
{
    match marks {
        [] => Ok(words),
        [first, rest @ ..] => other_marks_said(first_mark_said(words, *first)?, rest),
    }
}

#[tactic(auto, unfolding(crate::specs::layout::Rows::first_mark_said))]
fn first_mark_said(words: Words, t: u32) -> Result<Words, Memory>
    ensures { IfOk result (λ all. said all ≡ said words ++ first_mark_said t) }
{
    words.word(b"; channel delay changes at ")?.tick(t)
}

fn other_marks_said(words: Words, marks: &[u32]) -> Result<Words, Memory>
    ensures { IfOk result (λ all. said all ≡ said words ++ other_marks_said marks.now) }
{
    let mut all = words;
    for mark in marks {
        all = all.word(b", ")?.tick(*mark)?;
    }
    Ok(all)
}

// And all stretches, the first behind a colon, each other behind a comma.
fn stretches_said(words: Words, stretches: &[Stretch]) -> Result<Words, Memory>
    ensures { IfOk result (λ all. said all ≡ said words ++ stretches_said stretches.now) }
{
    match stretches {
        [] => Ok(words),
        [first, rest @ ..] => others_said(stretch_said(words.word(b": ")?, first)?, rest),
    }
}

fn others_said(words: Words, stretches: &[Stretch]) -> Result<Words, Memory>
    ensures { IfOk result (λ all. said all ≡ said words ++ others_said stretches.now) }
{
    let mut all = words;
    for stretch in stretches {
        all = stretch_said(all.word(b", ")?, stretch)?;
    }
    Ok(all)
}

fn stretch_said(words: Words, stretch: &Stretch) -> Result<Words, Memory>
    ensures { IfOk result (λ all. said all ≡ said words ++ stretch_said stretch.now) }
{
    words
        .word(value_name(stretch.value))?
        .number(stretch.from as u64)?
        .word(b" to ")?
        .number(stretch.to.saturating_sub(1) as u64)
}

fn value_name(value: Tern) -> &'static [u8]
    ensures { result.now ≡ value_word value }
{
    match value {
        Tern::Zero => b"off ",
        Tern::One => b"on ",
        Tern::Unknown => b"open ",
    }
}
