//! Who reads a gate, and who hears a channel.

ghost use Rattle.std.specs.Prelude.{◌≡◌, ℕ, [], ◌<◌, IfOk, length, slice_get, Some};
ghost use Rattle.net_gates.specs.Gates.{AreGates, HasArguments};
ghost use Rattle.net_gates.specs.Listing.{IsListed, ListGates, ListsGrow, ReadersHold, ReadsNone};
ghost use Rattle.net_gates.specs.Listing.{ReadsOne, ReadsTwo};
ghost use Rattle.net_gates.specs.Readers.{HearBelow, Hears, StandsIn};

use crate::gate::{Gate, GateId};
use model_line::Memory;
use std::alloc::Global;

/// For each gate those that have it as an argument, and for each channel those that hear it.
#[derive(Drop)]
pub struct Readers {
    pub of_gates: Vec<Vec<u32>>,
    pub of_channels: Vec<Vec<u32>>,
}

/// The readers of these gates. All memory is taken here.
pub fn readers_of(alloc: Global, gates: &[Gate], channels: u32) -> Result<Readers, Memory>
    requires laws { AreGates gates.now }
    requires heard { HearBelow channels gates.now }
    ensures { IfOk result (λ readers. ReadersHold gates.now readers) }
{
    let mut readers = Readers {
        of_gates: no_lists(alloc, gates.len())?,
        of_channels: no_lists(alloc, channels as usize)?,
    };
    for i in 0..gates.len() {
        list_gate(&gates[i], i as u32, &mut readers)?;
    }
    Ok(readers)
}

// So many empty lists.
fn no_lists(alloc: Global, count: usize) -> Result<Vec<Vec<u32>>, Memory>
    ensures count { IfOk result (λ lists. length lists.items ≡ count) }
    ensures empty { IfOk result (λ lists. (a : ℕ) (list : _) →
        slice_get lists.items a ≡ Some list → list.items ≡ []) }
{
    let mut lists = Vec::with_capacity(alloc, count)?;
    for _ in 0..count {
        lists.push(no_gates(alloc))?;
    }
    Ok(lists)
}

fn no_gates(alloc: Global) -> Vec<u32>
    ensures { result.items ≡ [] }
{
    Vec::new(alloc)
}

// Lists a gate where it is to be looked at.
fn list_gate(gate: &Gate, i: u32, readers: &mut Readers) -> Result<(), Memory>
    requires arguments { HasArguments i gate.now }
    requires channel { (c : ℕ) → Hears c gate.now → c < length readers.old.of_channels.items }
    requires inside { i < length readers.old.of_gates.items }
    requires lists { ListGates (length readers.old.of_gates.items) readers.old }
    ensures lists { IfOk result (λ _.
        ListGates (length readers.old.of_gates.items) readers.new) }
    ensures grow { IfOk result (λ _. ListsGrow readers.old readers.new) }
    ensures listed { IfOk result (λ _. IsListed i gate.now readers.new) }
{
    match *gate {
        Gate::Const(_) => list_none(gate, i, readers),
        Gate::Seen(_) => list_none(gate, i, readers),
        Gate::Loss(_) => list_none(gate, i, readers),
        Gate::Raw(channel) => list_raw(gate, channel, i, readers),
        Gate::Not(x) => list_reader(gate, x, i, readers),
        Gate::And(x, y) => list_readers(gate, x, y, i, readers),
        Gate::Or(x, y) => list_readers(gate, x, y, i, readers),
        Gate::Timer(x, _, _) => list_reader(gate, x, i, readers),
        Gate::Seal(x, y) => list_readers(gate, x, y, i, readers),
    }
}

// What is constant, shown or lost reads no gate and hears no channel.
fn list_none(gate: &Gate, i: u32, readers: &mut Readers) -> Result<(), Memory>
    requires is { ReadsNone gate.now }
    requires lists { ListGates (length readers.old.of_gates.items) readers.old }
    ensures lists { IfOk result (λ _.
        ListGates (length readers.old.of_gates.items) readers.new) }
    ensures grow { IfOk result (λ _. ListsGrow readers.old readers.new) }
    ensures listed { IfOk result (λ _. IsListed i gate.now readers.new) }
{
    Ok(())
}

fn list_raw(gate: &Gate, channel: u32, i: u32, readers: &mut Readers) -> Result<(), Memory>
    requires hears { Hears channel gate.now }
    requires channel { channel < length readers.old.of_channels.items }
    requires inside { i < length readers.old.of_gates.items }
    requires lists { ListGates (length readers.old.of_gates.items) readers.old }
    ensures lists { IfOk result (λ _.
        ListGates (length readers.old.of_gates.items) readers.new) }
    ensures grow { IfOk result (λ _. ListsGrow readers.old readers.new) }
    ensures listed { IfOk result (λ _. IsListed i gate.now readers.new) }
{
    readers.of_channels[channel as usize].push(i)?;
    Ok(())
}

fn list_reader(gate: &Gate, x: GateId, i: u32, readers: &mut Readers) -> Result<(), Memory>
    requires is { ReadsOne x.0 gate.now }
    requires argument { x.0 < length readers.old.of_gates.items }
    requires inside { i < length readers.old.of_gates.items }
    requires lists { ListGates (length readers.old.of_gates.items) readers.old }
    ensures lists { IfOk result (λ _.
        ListGates (length readers.old.of_gates.items) readers.new) }
    ensures grow { IfOk result (λ _. ListsGrow readers.old readers.new) }
    ensures listed { IfOk result (λ _. IsListed i gate.now readers.new) }
{
    list_in(x, i, readers)?;
    Ok(())
}

fn list_readers(
    gate: &Gate,
    x: GateId,
    y: GateId,
    i: u32,
    readers: &mut Readers,
) -> Result<(), Memory>
    requires are { ReadsTwo x.0 y.0 gate.now }
    requires first { x.0 < length readers.old.of_gates.items }
    requires second { y.0 < length readers.old.of_gates.items }
    requires inside { i < length readers.old.of_gates.items }
    requires lists { ListGates (length readers.old.of_gates.items) readers.old }
    ensures lists { IfOk result (λ _.
        ListGates (length readers.old.of_gates.items) readers.new) }
    ensures grow { IfOk result (λ _. ListsGrow readers.old readers.new) }
    ensures listed { IfOk result (λ _. IsListed i gate.now readers.new) }
{
    list_in(x, i, readers)?;
    list_in(y, i, readers)?;
    Ok(())
}

// Lists a gate as a reader of another one.
fn list_in(x: GateId, i: u32, readers: &mut Readers) -> Result<(), Memory>
    requires argument { x.0 < length readers.old.of_gates.items }
    requires inside { i < length readers.old.of_gates.items }
    requires lists { ListGates (length readers.old.of_gates.items) readers.old }
    ensures lists { IfOk result (λ _.
        ListGates (length readers.old.of_gates.items) readers.new) }
    ensures grow { IfOk result (λ _. ListsGrow readers.old readers.new) }
    ensures listed { IfOk result (λ _. (list : _) →
        slice_get readers.new.of_gates.items x.0 ≡ Some list → StandsIn i list.items) }
{
    readers.of_gates[x.0 as usize].push(i)?;
    Ok(())
}
