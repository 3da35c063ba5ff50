//! The steps that the rows of a timing have said so far. They are entered at their places in a table
//! and listed once, so that a step costs the same whatever the order of the rows.

ghost use Rattle.std.specs.Prelude.{◌≡◌, ◌<◌, ◌≤◌, ◌&&◌, ◌==◌, ◌+◌, ◌*◌, ◌++◌, ℕ, suc, [], length};
ghost use Rattle.std.specs.Prelude.{IsTrue, IsFalse, IfOk, OnOk, None, drop, get_or};
ghost use Rattle.std.specs.{List.list_any, Option.is_some};
ghost use Rattle.model_timing.specs.Timing.{ascend, with_step};
ghost use Rattle.file_tables.specs.timing.Table.{listed, place_of, step_of};

use base_records::Memory;
use model_timing::Step;
use run_signal::Tick;
use std::alloc::Global;
use std::marker::Model;

/// The steps of a timing, at most one of each parameter and tick. Contracts see them in order.
#[derive(Drop)]
pub struct Steps {
    // The value of the step at each place, as far as some step has one.
    table: Vec<Option<Tick>>,
}

impl Model for Steps {
    ghost use Rattle.std.specs.Prelude.{◌≤◌, ℕ, List, length};
    ghost use Rattle.model_timing.specs.declared.step.Step.{Step};
    ghost use Rattle.file_tables.specs.timing.Table.{listed};

    ghost Value = { List (Step ℕ) };

    ghost view = { λ a. listed 0 a.table.items };

    ghost invariant = { λ a. length a.table.items ≤ 262144 };
}

impl Steps {
    /// No steps.
    pub fn new(alloc: Global) -> Steps
        ensures { result ≡ [] }
    {
        Steps {
            table: Vec::new(alloc),
        }
    }

    /// Whether the parameter has a step at the tick.
    pub fn has(&self, param: u32, from: u32) -> bool
        requires few { param < 64 }
        requires early { from < 4096 }
        ensures { result ≡ list_any (λ s. (s.param == param) && (s.from == from)) self.now }
    {
        is_taken(&self.table, place_in(param, from))
    }

    /// Adds a step at its place.
    pub fn insert(&mut self, step: Step<Tick>) -> Result<(), Memory>
        requires few { step.param < 64 }
        requires early { step.from < 4096 }
        requires once { IsFalse (list_any (λ s. (s.param == step.param) && (s.from == step.from))
            self.old) }
        ensures { OnOk result (self.new ≡ with_step step self.old) }
    {
        let place = place_in(step.param, step.from);
        make_room(&mut self.table, step.param)?;
        self.table[place] = Some(step.value);
        Ok(())
    }

    /// The steps in order.
    pub fn in_order(&self, alloc: Global) -> Result<Vec<Step<Tick>>, Memory>
        ensures steps { IfOk result (λ steps. steps.items ≡ self.now) }
        ensures ascending { IsTrue (ascend self.now) }
    {
        list_all(alloc, &self.table)
    }
}

// The place of a parameter and a tick.
fn place_in(param: u32, from: u32) -> usize
    requires few { param < 64 }
    requires early { from < 4096 }
    ensures { result ≡ place_of param from }
{
    param as usize * 4096 + from as usize
}

// Whether some step has the place.
fn is_taken(table: &[Option<Tick>], place: usize) -> bool
    ensures { result ≡ is_some (get_or table.now place None) }
{
    place < table.len() && table[place].is_some()
}

// Lengthens the table to all places of a parameter.
fn make_room(table: &mut Vec<Option<Tick>>, param: u32) -> Result<(), Memory>
    requires few { param < 64 }
    requires limited { length table.old.items ≤ 262144 }
    ensures limited { length table.new.items ≤ 262144 }
    ensures room { OnOk result (param * 4096 + 4096 ≤ length table.new.items) }
    ensures places { (place : ℕ) → get_or table.new.items place None ≡ get_or table.old.items place None }
    ensures same { listed 0 table.new.items ≡ listed 0 table.old.items }
{
    let room = (param as usize + 1) * 4096;
    if table.len() < room {
        table.resize(room, None)?;
    }
    Ok(())
}

// The steps of a table.
fn list_all(alloc: Global, table: &[Option<Tick>]) -> Result<Vec<Step<Tick>>, Memory>
    requires { length table.now ≤ 262144 }
    ensures { IfOk result (λ steps. steps.items ≡ listed 0 table.now) }
{
    let mut steps = Vec::new(alloc);
    for place in 0..table.len() {
        push_at(&mut steps, table, place)?;
    }
    Ok(steps)
}

// Appends the step at a place, if there is one.
fn push_at(steps: &mut Vec<Step<Tick>>, table: &[Option<Tick>], place: usize) -> Result<(), Memory>
    requires inside { place < length table.now }
    requires limited { length table.now ≤ 262144 }
    ensures { OnOk result (steps.new.items ++ listed (suc place) (drop (suc place) table.now)
        ≡ steps.old.items ++ listed place (drop place table.now)) }
{
    match table[place] {
        Some(value) => {
            steps.push(step_at(place, value))?;
            Ok(())
        }
        None => Ok(()),
    }
}

// The step that a value at a place is.
fn step_at(place: usize, value: Tick) -> Step<Tick>
    requires { place < 262144 }
    ensures { result ≡ step_of place value }
{
    Step {
        param: (place / 4096) as u32,
        from: (place % 4096) as u32,
        value,
    }
}
