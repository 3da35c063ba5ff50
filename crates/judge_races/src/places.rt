//! The races of a terminal over scripts.

ghost use Rattle.std.specs.Prelude.{◌≡◌, ◌<◌, ◌+◌, ◌^◌, List, Option, Some, IfOk, OnOk, length, slice_get};
ghost use Rattle.std.specs.List.{All};
ghost use Rattle.model_line.specs.Parameters.{terminal_count};
ghost use Rattle.model_line.specs.declared.script.Script.{Script};
ghost use Rattle.judge_races.specs.declared.stretch.Stretch.{Stretch};
ghost use Rattle.run_waves.specs.waves.Waves.{AreWaves};
ghost use Rattle.net_gates.specs.Formulas.{trees_of};
ghost use Rattle.judge_races.specs.Gates.{AreIn};
ghost use Rattle.judge_races.specs.Lasting.{AreAllWaves, AreHistoryWaves, AreRacesOver, AreTrips};
ghost use Rattle.judge_races.specs.Lasting.{AreEachRaces, IsTerminal};
ghost use Rattle.model_logic.specs.Logic.{set_tree};
ghost use Rattle.judge_races.specs.Operands.{alternatives};
ghost use Rattle.judge_races.specs.Gates.{AreConjunctions};

use crate::operands::conjunctions;
use crate::races::{Race, add_races};
use crate::stretch::Stretch;
use crate::terminal::{columns_at, trip_of};
use crate::waves::history_waves;
use model_line::{Memory, Script};
use net_gates::{Compiled, GateId};
use run_waves::waves::Runs;
use std::alloc::Global;

/// What is found of a terminal over scripts.
#[derive(Drop)]
pub struct Terminal {
    /// The conjunctions of what sets its trip, each by the gates of its operands.
    pub conjunctions: Vec<Vec<GateId>>,
    /// Of each script the longest stretch of ticks at which the trip may be set; nothing where it may
    /// not.
    pub trips: Vec<Option<Stretch>>,
    /// The races of each conjunction.
    pub races: Vec<Vec<Race>>,
}

/// The waves of all gates over each script.
pub fn all_waves(
    alloc: Global,
    compiled: &Compiled<'_>,
    scripts: &[Script],
) -> Result<Vec<Vec<Runs>>, Memory>
    ensures waves { IfOk result (λ all. All (λ waves. AreWaves (length compiled.now.net.now.gates)
        compiled.now.line.now.horizon waves.items) all.items) }
    ensures are { IfOk result (λ all. AreAllWaves compiled.now.line.now scripts.now
        compiled.now.net.now.gates all.items) }
{
    let mut all = Vec::with_capacity(alloc, scripts.len())?;
    for p in 0..scripts.len() {
        let waves = history_waves(alloc, compiled, &scripts[p])?;
        all.push(waves)?;
    }
    Ok(all)
}

/// What is found of a terminal over scripts, of whose interval histories these are the waves.
pub fn races_at(
    alloc: Global,
    compiled: &Compiled<'_>,
    all: &[Vec<Runs>],
    k: u32,
) -> Result<Terminal, Memory>
    requires terminal { k < terminal_count compiled.now.line.now }
    requires few { length all.now < 2 ^ 32 }
    requires waves { All (λ waves. AreWaves (length compiled.now.net.now.gates)
        compiled.now.line.now.horizon waves.items) all.now }
    ensures { IfOk result (λ found. (scripts : List Script) →
        AreAllWaves compiled.now.line.now scripts compiled.now.net.now.gates all.now →
        IsTerminal compiled.now.line.now scripts k found) }
{
    let conjunctions = conjunctions(alloc, compiled, k)?;
    let trips = trips(alloc, compiled, all, k)?;
    let races = each_races(alloc, compiled, all, k, &conjunctions, &trips)?;
    Ok(Terminal {
        conjunctions,
        trips,
        races,
    })
}

// The races of each conjunction.
fn each_races(
    alloc: Global,
    compiled: &Compiled<'_>,
    all: &[Vec<Runs>],
    k: u32,
    conjunctions: &[Vec<GateId>],
    trips: &[Option<Stretch>],
) -> Result<Vec<Vec<Race>>, Memory>
    requires gates { AreConjunctions compiled.now.net.now.gates
        (alternatives (set_tree compiled.now.line.now k)) conjunctions.now }
    requires few { length all.now < 2 ^ 32 }
    requires many { length trips.now ≡ length all.now }
    requires waves { All (λ waves. AreWaves (length compiled.now.net.now.gates)
        compiled.now.line.now.horizon waves.items) all.now }
    ensures { IfOk result (λ races. (scripts : List Script) →
        AreAllWaves compiled.now.line.now scripts compiled.now.net.now.gates all.now →
        AreEachRaces compiled.now.line.now scripts trips.now
        (alternatives (set_tree compiled.now.line.now k)) races.items) }
{
    let mut races = Vec::with_capacity(alloc, conjunctions.len())?;
    for i in 0..conjunctions.len() {
        let found = races_of(alloc, compiled, all, &conjunctions[i], trips)?;
        races.push(found)?;
    }
    Ok(races)
}

// Where a terminal's trip may be set, script by script.
fn trips(
    alloc: Global,
    compiled: &Compiled<'_>,
    all: &[Vec<Runs>],
    k: u32,
) -> Result<Vec<Option<Stretch>>, Memory>
    requires terminal { k < terminal_count compiled.now.line.now }
    requires waves { All (λ waves. AreWaves (length compiled.now.net.now.gates)
        compiled.now.line.now.horizon waves.items) all.now }
    ensures many { IfOk result (λ trips. length trips.items ≡ length all.now) }
    ensures are { IfOk result (λ trips. (scripts : List Script) →
        AreAllWaves compiled.now.line.now scripts compiled.now.net.now.gates all.now →
        AreTrips compiled.now.line.now scripts k trips.items) }
{
    let mut trips = Vec::with_capacity(alloc, all.len())?;
    for p in 0..all.len() {
        let trip = trip_of(alloc, compiled, &all[p], k)?;
        trips.push(trip)?;
    }
    Ok(trips)
}

// The races of a conjunction.
fn races_of(
    alloc: Global,
    compiled: &Compiled<'_>,
    all: &[Vec<Runs>],
    ids: &[GateId],
    trips: &[Option<Stretch>],
) -> Result<Vec<Race>, Memory>
    requires exist { AreIn compiled.now.net.now.gates ids.now }
    requires few { length all.now < 2 ^ 32 }
    requires many { length trips.now ≡ length all.now }
    requires waves { All (λ waves. AreWaves (length compiled.now.net.now.gates)
        compiled.now.line.now.horizon waves.items) all.now }
    ensures { IfOk result (λ races. (scripts : List Script) →
        AreAllWaves compiled.now.line.now scripts compiled.now.net.now.gates all.now →
        AreRacesOver compiled.now.line.now scripts trips.now
        (trees_of compiled.now.net.now.gates ids.now) (length scripts) races.items) }
{
    let mut races = Vec::new(alloc);
    for p in 0..all.len() {
        add_script(
            alloc, compiled, &mut races, p as u32, &all[p], ids, trips[p],
        )?;
    }
    Ok(races)
}

// Adds what one more script tells.
fn add_script(
    alloc: Global,
    compiled: &Compiled<'_>,
    races: &mut Vec<Race>,
    place: u32,
    waves: &[Runs],
    ids: &[GateId],
    trip: Option<Stretch>,
) -> Result<(), Memory>
    requires exist { AreIn compiled.now.net.now.gates ids.now }
    requires waves { AreWaves (length compiled.now.net.now.gates) compiled.now.line.now.horizon
        waves.now }
    ensures { OnOk result ((scripts : List Script) (script : Script) (trips : List (Option Stretch)) →
        slice_get scripts place ≡ Some script → slice_get trips place ≡ Some trip →
        AreHistoryWaves compiled.now.line.now script compiled.now.net.now.gates waves.now →
        AreRacesOver compiled.now.line.now scripts trips
        (trees_of compiled.now.net.now.gates ids.now) place races.old.items →
        AreRacesOver compiled.now.line.now scripts trips
        (trees_of compiled.now.net.now.gates ids.now) (place + 1) races.new.items) }
{
    if let Some(_) = trip {
        return Ok(());
    }
    let columns = columns_at(alloc, compiled, waves, ids)?;
    add_races(alloc, races, place, compiled.line.horizon, &columns)?;
    Ok(())
}
