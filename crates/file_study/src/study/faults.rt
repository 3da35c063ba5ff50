//! The faults of a study.

ghost use Rattle.std.specs.Prelude.{◌≡◌, ◌<◌, ◌++◌, [], true, IfOk, map, option_map};
ghost use Rattle.std.specs.List.{list_any};
ghost use Rattle.std.specs.Str.{bytes_eq};
ghost use Rattle.toml.specs.View.{view, table_view, items_view};
ghost use Rattle.model_line.specs.PlainNames.{is_plain_name};
ghost use Rattle.file_line.specs.Lines.{line_values};
ghost use Rattle.base_memory.specs.Gives.{Gives};
ghost use Rattle.file_study.specs.study.Faults.{stage_values, fault_values, is_longer, is_later};
ghost use Rattle.file_study.specs.study.Faults.{kind_at, moments_at, within_at, new_name};
ghost use Rattle.file_study.specs.study.Faults.{name_at, head_keys, whole_keys, stage_keys};
ghost use Rattle.file_study.specs.study.Faults.{terminal_names, stage_in, stage_at, stages_in};
ghost use Rattle.file_study.specs.study.Faults.{several_stages, only_stage, stages_or_one, stages_of};
ghost use Rattle.file_study.specs.study.Faults.{fault_at, faults_in, lasts_at};
ghost use Rattle.file_study.specs.study.Moments.{lasts_values};

use crate::study::shows::shows;
use crate::study::stage::{Stage, SweptFault};
use crate::study::ticks::{Lasting, lasts, moments};
use crate::study::units::Units;
use base_memory::Stopped;
use file_document::keys::{counted, find, items_of, only, table_of, text};
use file_document::words::kind_of;
use file_document::{DocumentFault, Path};
use model_line::{Kind, Line, Name, is_plain};
use std::alloc::Global;
use toml::{Table, Value};

// How long a stage lasts is rounded up in an external fault, and down in an internal one.
fn is_longer(kind: Kind) -> bool
    ensures { result ≡ is_longer kind }
{
    kind == Kind::External
}

// How far into a stage an element comes is rounded the other way.
fn is_later(kind: Kind) -> bool
    ensures { result ≡ is_later kind }
{
    kind == Kind::Internal
}

#[tactic(auto, unfolding(crate::specs::study::Faults::kind_at))]
fn kind(path: Path, table: &Table) -> Result<Kind, DocumentFault>
    ensures { result ≡ kind_at path (table_view table.now) }
{
    let text = text(path, "kind", table)?;
    kind_of(path.key(b"kind"), text)
}

// The keys of a fault with stages.
fn head_keys(kind: Kind) -> &'static [&'static str]
    ensures { map (λ name. name.now) result.now ≡ head_keys kind }
{
    match kind {
        Kind::Internal => &["name", "kind", "start", "trip_within", "stage"],
        Kind::External => &["name", "kind", "start", "stage"],
    }
}

// Those of a fault without, beside the names of the terminals.
fn whole_keys(kind: Kind) -> &'static [&'static str]
    ensures { map (λ name. name.now) result.now ≡ whole_keys kind }
{
    match kind {
        Kind::Internal => &["name", "kind", "start", "trip_within", "lasts", "lost"],
        Kind::External => &["name", "kind", "start", "lasts", "lost"],
    }
}

// Whether a fault before has the name.
fn is_taken(before: &[SweptFault], name: &str) -> bool
    ensures { result ≡ list_any (λ f. bytes_eq f.name name.now) before.now }
{
    before
        .iter()
        .any(|fault| fault.name.bytes() == name.as_bytes())
}

// A plain name that no fault before has.
fn new_name(path: Path, before: &[SweptFault], name: &str) -> Result<Name, DocumentFault>
    ensures { result ≡ new_name path (map (λ f. f.name) before.now) name.now }
{
    if !is_plain(name.as_bytes()) {
        return Err(DocumentFault::BadName(path));
    }
    if is_taken(before, name) {
        return Err(DocumentFault::Twice(path));
    }
    Ok(Name::plain(name.as_bytes()))
}

#[tactic(auto, unfolding(crate::specs::study::Faults::name_at))]
fn name(path: Path, before: &[SweptFault], table: &Table) -> Result<Name, DocumentFault>
    ensures { result ≡ name_at path (map (λ f. f.name) before.now) (table_view table.now) }
{
    let text = text(path, "name", table)?;
    new_name(path.key(b"name"), before, text)
}

// A time of a fault under a required key.
#[tactic(auto, unfolding(crate::specs::study::Faults::moments_at))]
fn moments_at(
    alloc: Global,
    upward: bool,
    units: Units,
    path: Path,
    key: &str,
    table: &Table,
) -> Result<Vec<u32>, Stopped<DocumentFault>>
    requires { 0 < units.tick_us }
    ensures { Gives (λ v. v.items) result
        (moments_at upward units path key.now (table_view table.now)) }
{
    let text = text(path, key, table)?;
    moments(
        alloc,
        upward,
        units,
        path.key(key.as_bytes()),
        text.as_bytes(),
    )
}

// How long a stage lasts, under a required key.
#[tactic(auto, unfolding(crate::specs::study::Faults::lasts_at))]
fn lasts_at(
    alloc: Global,
    loose: bool,
    upward: bool,
    units: Units,
    path: Path,
    table: &Table,
) -> Result<Lasting, Stopped<DocumentFault>>
    requires { 0 < units.tick_us }
    ensures { Gives lasts_values result (lasts_at loose upward units path (table_view table.now)) }
{
    let text = text(path, "lasts", table)?;
    lasts(
        alloc,
        loose,
        upward,
        units,
        path.key(b"lasts"),
        text.as_bytes(),
    )
}

// By when an internal fault has to be tripped.
fn within(
    alloc: Global,
    kind: Kind,
    units: Units,
    path: Path,
    table: &Table,
) -> Result<Vec<u32>, Stopped<DocumentFault>>
    requires { 0 < units.tick_us }
    ensures { Gives (λ v. v.items) result (within_at kind units path (table_view table.now)) }
{
    match kind {
        Kind::Internal => moments_at(alloc, false, units, path, "trip_within", table),
        Kind::External => Ok(vec![in alloc; 0]?),
    }
}

// The stage that a table says.
#[tactic(auto, unfolding(crate::specs::study::Faults::stage_in))]
fn stage_in(
    alloc: Global,
    loose: bool,
    kind: Kind,
    units: Units,
    line: &Line,
    path: Path,
    table: &Table,
) -> Result<Stage, Stopped<DocumentFault>>
    requires { 0 < units.tick_us }
    ensures { Gives stage_values result
        (stage_in loose kind units (line_values line.now) path (table_view table.now)) }
{
    let Lasting { ticks, between } = lasts_at(alloc, loose, is_longer(kind), units, path, table)?;
    let shows = shows(alloc, is_later(kind), units, line, &ticks, path, table)?;
    Ok(Stage {
        lasts: ticks,
        between,
        shows,
    })
}

// A stage, which has no other keys.
#[tactic(auto, unfolding(crate::specs::study::Faults::stage_at))]
fn stage(
    alloc: Global,
    loose: bool,
    kind: Kind,
    units: Units,
    line: &Line,
    names: &[Name],
    path: Path,
    value: &Value,
) -> Result<Stage, Stopped<DocumentFault>>
    requires tick { 0 < units.tick_us }
    requires names { names.now ≡ terminal_names (line_values line.now) }
    ensures { Gives stage_values result
        (stage_at loose kind units (line_values line.now) path (view value.now)) }
{
    let table = table_of(path, value)?;
    only(path, &["lasts", "lost"], names, table)?;
    stage_in(alloc, loose, kind, units, line, path, table)
}

// The stages of an array.
fn stages_in(
    alloc: Global,
    loose: bool,
    kind: Kind,
    units: Units,
    line: &Line,
    names: &[Name],
    path: Path,
    items: &[Value],
) -> Result<Vec<Stage>, Stopped<DocumentFault>>
    requires tick { 0 < units.tick_us }
    requires names { names.now ≡ terminal_names (line_values line.now) }
    ensures { Gives (λ v. map stage_values v.items) result
        (stages_in loose kind units (line_values line.now) path 0 (items_view items.now) []) }
{
    let mut stages = Vec::new(alloc);
    for (i, value) in items.iter().enumerate() {
        let stage = stage(alloc, loose, kind, units, line, names, path.item(i), value)?;
        stages.push(stage)?;
    }
    Ok(stages)
}

// The stages of an array, 1 to 20.
#[tactic(auto, unfolding(crate::specs::study::Faults::several_stages))]
fn several_stages(
    alloc: Global,
    loose: bool,
    kind: Kind,
    units: Units,
    line: &Line,
    names: &[Name],
    path: Path,
    value: &Value,
) -> Result<Vec<Stage>, Stopped<DocumentFault>>
    requires tick { 0 < units.tick_us }
    requires names { names.now ≡ terminal_names (line_values line.now) }
    ensures { Gives (λ v. map stage_values v.items) result
        (several_stages loose kind units (line_values line.now) path (view value.now)) }
{
    let items = counted(path, 1, 20, items_of(path, value)?)?;
    stages_in(alloc, loose, kind, units, line, names, path, items)
}

// The fault itself as its only stage.
#[tactic(auto, unfolding(crate::specs::study::Faults::only_stage))]
fn only_stage(
    alloc: Global,
    loose: bool,
    kind: Kind,
    units: Units,
    line: &Line,
    path: Path,
    table: &Table,
) -> Result<Vec<Stage>, Stopped<DocumentFault>>
    requires { 0 < units.tick_us }
    ensures { Gives (λ v. map stage_values v.items) result
        (only_stage loose kind units (line_values line.now) path (table_view table.now)) }
{
    let stage = stage_in(alloc, loose, kind, units, line, path, table)?;
    Ok(vec![in alloc; stage]?)
}

// The stages of a fault, or the fault itself as its only one.
#[tactic(auto, unfolding(crate::specs::study::Faults::stages_of))]
fn stages(
    alloc: Global,
    loose: bool,
    kind: Kind,
    units: Units,
    line: &Line,
    names: &[Name],
    path: Path,
    table: &Table,
) -> Result<Vec<Stage>, Stopped<DocumentFault>>
    requires tick { 0 < units.tick_us }
    requires names { names.now ≡ terminal_names (line_values line.now) }
    ensures { Gives (λ v. map stage_values v.items) result
        (stages_of loose kind units (line_values line.now) path (table_view table.now)) }
{
    match find(table, "stage") {
        Some(value) => {
            only(path, head_keys(kind), &[], table)?;
            several_stages(
                alloc,
                loose,
                kind,
                units,
                line,
                names,
                path.key(b"stage"),
                value,
            )
        }
        None => {
            only(path, whole_keys(kind), names, table)?;
            only_stage(alloc, loose, kind, units, line, path, table)
        }
    }
}

// A fault, which has a name that those before it have not.
#[tactic(auto, unfolding(crate::specs::study::Faults::fault_at))]
fn fault(
    alloc: Global,
    loose: bool,
    units: Units,
    line: &Line,
    names: &[Name],
    path: Path,
    before: &[SweptFault],
    value: &Value,
) -> Result<SweptFault, Stopped<DocumentFault>>
    requires tick { 0 < units.tick_us }
    requires names { names.now ≡ terminal_names (line_values line.now) }
    ensures { Gives fault_values result
        (fault_at loose units (line_values line.now) path (map (λ f. f.name) before.now)
        (view value.now)) }
{
    let table = table_of(path, value)?;
    let name = name(path, before, table)?;
    let kind = kind(path, table)?;
    let start = moments_at(alloc, false, units, path, "start", table)?;
    let trip_within = within(alloc, kind, units, path, table)?;
    let stages = stages(alloc, loose, kind, units, line, names, path, table)?;
    Ok(SweptFault {
        name,
        kind,
        start,
        trip_within,
        stages,
    })
}

/// The faults of an array. Their stages may last for intervals where `loose`.
pub fn faults_in(
    alloc: Global,
    loose: bool,
    units: Units,
    line: &Line,
    names: &[Name],
    path: Path,
    items: &[Value],
) -> Result<Vec<SweptFault>, Stopped<DocumentFault>>
    requires tick { 0 < units.tick_us }
    requires names { names.now ≡ terminal_names (line_values line.now) }
    ensures { Gives (λ v. map fault_values v.items) result
        (faults_in loose units (line_values line.now) path 0 (items_view items.now) []) }
{
    let mut faults = Vec::new(alloc);
    for (i, value) in items.iter().enumerate() {
        let fault = fault(
            alloc,
            loose,
            units,
            line,
            names,
            path.item(i),
            &faults,
            value,
        )?;
        faults.push(fault)?;
    }
    Ok(faults)
}
