//! The signals that a recorder tells.

ghost use Rattle.std.specs.Prelude.{◌≡◌, ◌<◌, length, option_map};
ghost use Rattle.toml.specs.View.{view, table_view};
ghost use Rattle.base_memory.specs.Gives.{Becomes, Gives};
ghost use Rattle.file_records.specs.map.Signals.{signals_values, with_sources, said_or_not, signal_under, shown};
ghost use Rattle.file_records.specs.map.Signals.{elements_of, signals_of};

use crate::map::losses::push_losses;
use crate::map::source::{Signal, Signals};
use crate::map::sources::push_sources;
use base_memory::Stopped;
use file_document::keys::find;
use file_document::{DocumentFault, Path};
use model_line::{Element, Line, Place, What};
use std::alloc::Global;
use toml::{Table, Value};

#[tactic(auto, unfolding(crate::specs::map::Signals::with_sources))]
fn push_value(
    alloc: Global,
    path: Path,
    signal: Signal,
    value: &Value,
    signals: &mut Signals,
) -> Result<(), Stopped<DocumentFault>>
    ensures { Becomes result (signals_values signals.new)
        (with_sources path signal (view value.now) (signals_values signals.old)) }
{
    push_sources(alloc, path, signal, value, &mut signals.sources)?;
    signals.told.push(signal)?;
    Ok(())
}

fn push_optional(
    alloc: Global,
    path: Path,
    signal: Signal,
    value: Option<&Value>,
    signals: &mut Signals,
) -> Result<(), Stopped<DocumentFault>>
    ensures { Becomes result (signals_values signals.new)
        (said_or_not path signal (option_map (λ v. view v.now) value.entry)
        (signals_values signals.old)) }
{
    match value {
        Some(value) => push_value(alloc, path, signal, value, signals),
        None => Ok(()),
    }
}

/// The signal under a key; where the key is absent it isn't told.
pub fn push_signal(
    alloc: Global,
    path: Path,
    key: &str,
    signal: Signal,
    table: &Table,
    signals: &mut Signals,
) -> Result<(), Stopped<DocumentFault>>
    ensures { Becomes result (signals_values signals.new)
        (signal_under path key.now signal (table_view table.now)
        (signals_values signals.old)) }
{
    let value = find(table, key);
    push_optional(alloc, path.key(key.as_bytes()), signal, value, signals)
}

fn shown(element: Element, terminal: u32) -> Signal
    ensures { result ≡ shown element terminal }
{
    Signal::Shown(What::Element(Place { element, terminal }))
}

// What terminal k sees.
#[tactic(auto, unfolding(crate::specs::map::Signals::elements_of))]
fn push_elements(
    alloc: Global,
    path: Path,
    k: u32,
    table: &Table,
    signals: &mut Signals,
) -> Result<(), Stopped<DocumentFault>>
    ensures { Becomes result (signals_values signals.new)
        (elements_of path k (table_view table.now) (signals_values signals.old)) }
{
    push_signal(alloc, path, "z1", shown(Element::Z1, k), table, signals)?;
    push_signal(alloc, path, "z2", shown(Element::Z2, k), table, signals)?;
    push_signal(alloc, path, "rv", shown(Element::Rv, k), table, signals)?;
    push_signal(alloc, path, "uv", shown(Element::Uv, k), table, signals)?;
    push_signal(alloc, path, "cur", shown(Element::Cur, k), table, signals)
}

/// What is told of terminal k: its elements, the channels to it that are lost, its key and its trip.
#[tactic(auto, unfolding(crate::specs::map::Signals::signals_of))]
pub fn signals(
    alloc: Global,
    line: &Line,
    path: Path,
    k: u32,
    table: &Table,
) -> Result<Signals, Stopped<DocumentFault>>
    requires { k < length line.now.terminals.items }
    ensures { Gives signals_values result
        (signals_of line.now path k (table_view table.now)) }
{
    let mut signals = Signals {
        told: Vec::new(alloc),
        sources: Vec::new(alloc),
    };
    push_elements(alloc, path, k, table, &mut signals)?;
    let lost = find(table, "loss");
    push_losses(alloc, line, path.key(b"loss"), k, lost, &mut signals)?;
    push_signal(alloc, path, "key", Signal::Key(k), table, &mut signals)?;
    push_signal(alloc, path, "trip", Signal::Trip(k), table, &mut signals)?;
    Ok(signals)
}
