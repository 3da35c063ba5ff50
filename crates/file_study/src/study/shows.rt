//! What a stage of a fault shows.

ghost use Rattle.std.specs.Prelude.{◌≡◌, ◌<◌, ◌≤◌, true, length, nat_lt};
ghost use Rattle.std.specs.List.{before_first, after_first, list_any};
ghost use Rattle.toml.specs.View.{view, table_view, items_view};
ghost use Rattle.file_line.specs.Lines.{line_values};
ghost use Rattle.base_memory.specs.Gives.{Becomes, Gives};
ghost use Rattle.model_line.specs.{PlainNames.is_plain_name, Terminals.are_plain_names};
ghost use Rattle.file_study.specs.study.Shows.{element_of, element_in, shift_in, within_stage};
ghost use Rattle.file_study.specs.study.Shows.{shown_in};
ghost use Rattle.base_text.specs.lines.Lines.{is_space};
ghost use Rattle.file_study.specs.study.Shows.{all_shown, terminal_shows, terminals_show};
ghost use Rattle.file_study.specs.study.Shows.{channel_called, channel_in, lost_in, all_lost, shows_of};

use crate::study::stage::Shown;
use crate::study::ticks::instant;
use crate::study::units::Units;
use base_memory::Stopped;
use base_text::lines::find_byte;
use file_document::keys::{find, optional_items, text_of};
use file_document::{DocumentFault, Path};
use model_line::{Element, Line, Place, Terminal, What};
use model_names::channel_of_name;
use std::alloc::Global;
use toml::{Table, Value};

// The element of this name.
fn element(text: &[u8]) -> Option<Element>
    ensures { result ≡ element_of text.now }
{
    match text {
        b"z1" => Some(Element::Z1),
        b"z2" => Some(Element::Z2),
        b"rv" => Some(Element::Rv),
        b"uv" => Some(Element::Uv),
        b"cur" => Some(Element::Cur),
        _ => None,
    }
}

fn element_in(path: Path, text: &[u8]) -> Result<Element, DocumentFault>
    ensures { result ≡ element_in path (element_of text.now) }
{
    match element(text) {
        Some(element) => Ok(element),
        None => Err(DocumentFault::BadName(path)),
    }
}

// What stands before the first space, or all where there is none.
fn before_space(text: &str) -> &[u8]
    ensures { result.now ≡ before_first is_space text.now }
{
    let bytes = text.as_bytes();
    &bytes[..find_byte(bytes, b' ')]
}

// What stands behind the first space.
fn behind_space(text: &str) -> &[u8]
    ensures { result.now ≡ after_first is_space text.now }
{
    let bytes = text.as_bytes();
    let space = find_byte(bytes, b' ');
    if space < bytes.len() {
        &bytes[space + 1..]
    } else {
        &bytes[space..]
    }
}

// Behind an element: nothing, or `+` and how far into the stage it comes.
fn shift(upward: bool, units: Units, path: Path, text: &[u8]) -> Result<u32, DocumentFault>
    requires { 0 < units.tick_us }
    ensures { result ≡ shift_in upward units path text.now }
{
    if text.is_empty() {
        return Ok(0);
    }
    if text[0] != b'+' {
        return Err(DocumentFault::BadName(path));
    }
    instant(upward, units, path, &text[1..])
}

// Whether a stage lasts longer with some value of its sweep.
fn is_longer(lasts: &[u32], after: u32) -> bool
    ensures { result ≡ list_any (λ ticks. nat_lt after ticks) lasts.now }
{
    lasts.iter().any(|ticks| after < *ticks)
}

// How far into a stage an element comes, where the stage lasts longer.
fn within_stage(path: Path, lasts: &[u32], after: u32) -> Result<u32, DocumentFault>
    ensures { result ≡ within_stage path lasts.now after }
{
    if is_longer(lasts, after) {
        Ok(after)
    } else {
        Err(DocumentFault::Range(path))
    }
}

// An element at terminal k, as `z1` or `z1 +12 ms`, in a stage that lasts so long.
#[tactic(auto, unfolding(crate::specs::study::Shows::shown_in))]
fn shown(
    upward: bool,
    units: Units,
    lasts: &[u32],
    k: u32,
    path: Path,
    value: &Value,
) -> Result<Shown, DocumentFault>
    requires { 0 < units.tick_us }
    ensures { result ≡ shown_in upward units lasts.now k path (view value.now) }
{
    let text = text_of(path, value)?;
    let element = element_in(path, before_space(text))?;
    let shift = shift(upward, units, path, behind_space(text))?;
    let after = within_stage(path, lasts, shift)?;
    Ok(Shown {
        what: What::Element(Place {
            element,
            terminal: k,
        }),
        after,
    })
}

// Those of an array.
fn push_shown(
    upward: bool,
    units: Units,
    lasts: &[u32],
    k: u32,
    path: Path,
    items: &[Value],
    shows: &mut Vec<Shown>,
) -> Result<(), Stopped<DocumentFault>>
    requires { 0 < units.tick_us }
    ensures { Becomes result shows.new.items
        (all_shown upward units lasts.now k path 0 (items_view items.now) shows.old.items) }
{
    for (i, value) in items.iter().enumerate() {
        let shown = shown(upward, units, lasts, k, path.item(i), value)?;
        shows.push(shown)?;
    }
    Ok(())
}

// What terminal k sees, under its name.
#[tactic(auto, unfolding(crate::specs::study::Shows::terminal_shows))]
fn push_terminal(
    upward: bool,
    units: Units,
    lasts: &[u32],
    path: Path,
    table: &Table,
    k: u32,
    terminal: Terminal,
    shows: &mut Vec<Shown>,
) -> Result<(), Stopped<DocumentFault>>
    requires tick { 0 < units.tick_us }
    requires plain { is_plain_name terminal.name ≡ true }
    ensures { Becomes result shows.new.items
        (terminal_shows upward units lasts.now path (table_view table.now) k terminal
        shows.old.items) }
{
    let name = terminal.name.plain_text();
    let path = path.key(name.as_bytes());
    let items = optional_items(path, find(table, name))?;
    push_shown(upward, units, lasts, k, path, items, shows)
}

// What the terminals see.
fn push_terminals(
    upward: bool,
    units: Units,
    lasts: &[u32],
    path: Path,
    table: &Table,
    terminals: &[Terminal],
    shows: &mut Vec<Shown>,
) -> Result<(), Stopped<DocumentFault>>
    requires tick { 0 < units.tick_us }
    requires plain { are_plain_names terminals.now ≡ true }
    requires few { length terminals.now ≤ 3 }
    ensures { Becomes result shows.new.items
        (terminals_show upward units lasts.now path (table_view table.now) 0 terminals.now
        shows.old.items) }
{
    for (k, terminal) in terminals.iter().enumerate() {
        push_terminal(
            upward, units, lasts, path, table, k as u32, *terminal, shows,
        )?;
    }
    Ok(())
}

// A channel that is lost.
#[tactic(auto, unfolding(crate::specs::study::Shows::lost_in))]
fn lost(line: &Line, path: Path, value: &Value) -> Result<Shown, DocumentFault>
    ensures { result ≡ lost_in (line_values line.now) path (view value.now) }
{
    let text = text_of(path, value)?;
    match channel_of_name(line, text.as_bytes()) {
        Some(channel) => Ok(Shown {
            what: What::Loss(channel),
            after: 0,
        }),
        None => Err(DocumentFault::BadName(path)),
    }
}

// Those of an array.
fn push_lost(
    line: &Line,
    path: Path,
    items: &[Value],
    shows: &mut Vec<Shown>,
) -> Result<(), Stopped<DocumentFault>>
    ensures { Becomes result shows.new.items
        (all_lost (line_values line.now) path 0 (items_view items.now) shows.old.items) }
{
    for (i, value) in items.iter().enumerate() {
        let lost = lost(line, path.item(i), value)?;
        shows.push(lost)?;
    }
    Ok(())
}

/// What a stage that lasts so long shows: what the terminals see, in the order of the line, and the
/// channels that are lost. `Range` comes of an element that comes only when the stage has ended, with
/// each value of its sweep.
#[tactic(auto, unfolding(crate::specs::study::Shows::shows_of))]
pub fn shows(
    alloc: Global,
    upward: bool,
    units: Units,
    line: &Line,
    lasts: &[u32],
    path: Path,
    table: &Table,
) -> Result<Vec<Shown>, Stopped<DocumentFault>>
    requires { 0 < units.tick_us }
    ensures { Gives (λ v. v.items) result
        (shows_of upward units (line_values line.now) lasts.now path (table_view table.now)) }
{
    let mut shows = Vec::new(alloc);
    push_terminals(
        upward,
        units,
        lasts,
        path,
        table,
        &line.terminals,
        &mut shows,
    )?;
    let path = path.key(b"lost");
    let items = optional_items(path, find(table, "lost"))?;
    push_lost(line, path, items, &mut shows)?;
    Ok(shows)
}
