//! The pass over the ticks of a script.

ghost use Rattle.std.specs.Prelude.{◌≡◌, ◌<◌, ◌+◌, ℕ, Bool, List, IfOk, OnOk, IsTrue, length};
ghost use Rattle.judge_races.specs.Races.{AreRaces, Column, IsAt, IsLookedAt};
ghost use Rattle.std.specs.List.{All};
ghost use Rattle.std.specs.Prelude.{MatchOption, Some, slice_get};
ghost use Rattle.judge_races.specs.Races.{columns_of, HasRaceAt, HasNone};

use crate::columns::{begins_at, ends_at, most};
use model_line::Memory;
use std::alloc::Global;

/// A race: the operands of a conjunction that have ended where they lack so many ticks, and those
/// that come on then.
#[derive(Drop)]
pub struct Race {
    /// Of each operand whether it lacks the most.
    pub ends: Vec<bool>,
    /// Of each operand whether it comes on at the tick.
    pub begins: Vec<bool>,
    pub lack: u32,
    /// The number of the script.
    pub place: u32,
    pub tick: u32,
}

/// Adds what the ticks of one more script tell to the races of those before it.
pub fn add_races(
    alloc: Global,
    races: &mut Vec<Race>,
    place: u32,
    horizon: u32,
    columns: &[Vec<Option<u32>>],
) -> Result<(), Memory>
    requires { All (λ column. length column.items ≡ horizon) columns.now }
    ensures { OnOk result ((all : ℕ → List Column) (counts : ℕ → Bool) →
        all place ≡ columns_of columns.now → IsTrue (counts place) →
        AreRaces all (IsLookedAt counts horizon place 0) races.old.items →
        AreRaces all (IsLookedAt counts horizon place horizon) races.new.items) }
{
    for t in 0..horizon {
        add_tick(alloc, races, place, horizon, t, columns)?;
    }
    Ok(())
}

// Adds what one tick tells.
fn add_tick(
    alloc: Global,
    races: &mut Vec<Race>,
    place: u32,
    horizon: u32,
    t: u32,
    columns: &[Vec<Option<u32>>],
) -> Result<(), Memory>
    requires long { All (λ column. length column.items ≡ horizon) columns.now }
    requires within { t < horizon }
    ensures { OnOk result ((all : ℕ → List Column) (counts : ℕ → Bool) →
        all place ≡ columns_of columns.now → IsTrue (counts place) →
        AreRaces all (IsLookedAt counts horizon place t) races.old.items →
        AreRaces all (IsLookedAt counts horizon place (t + 1)) races.new.items) }
{
    let Some(lack) = most(columns, t) else {
        return Ok(());
    };
    let ends = ends_at(alloc, columns, t, lack)?;
    let begins = begins_at(alloc, columns, t)?;
    put_race(
        races,
        Race {
            ends,
            begins,
            lack,
            place,
            tick: t,
        },
    )
}

// Puts a race of the next tick to those so far: in place of one of the same operands that lack more.
fn put_race(races: &mut Vec<Race>, race: Race) -> Result<(), Memory>
    ensures { OnOk result ((all : ℕ → List Column) (counts : ℕ → Bool) (horizon : ℕ) →
        IsAt all race → IsTrue (counts race.place) → race.tick < horizon →
        AreRaces all (IsLookedAt counts horizon race.place race.tick) races.old.items →
        AreRaces all (IsLookedAt counts horizon race.place (race.tick + 1)) races.new.items) }
{
    match place_of(races, &race.ends) {
        Some(i) => {
            if race.lack < races[i].lack {
                races[i] = race;
            }
        }
        None => races.push(race)?,
    }
    Ok(())
}

// Which race is of these operands.
fn place_of(races: &[Race], ends: &[bool]) -> Option<usize>
    ensures { MatchOption result (HasNone races.now ends.now) (HasRaceAt races.now ends.now) }
{
    for i in 0..races.len() {
        if *races[i].ends == *ends {
            return Some(i);
        }
    }
    None
}
