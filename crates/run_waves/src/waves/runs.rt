//! A wave as runs.
#![tactic(auto)]

ghost use Rattle.std.specs.Prelude.{◌≡◌, ◌+◌, ◌-◌, ◌<◌, ◌≤◌, [], ◌++◌, length, replicate};
ghost use Rattle.std.specs.Prelude.{slice_get, Some, IfOk, IsTrue, MatchResult};
ghost use Rattle.run_signal.specs.Terns.{tern_rails};
ghost use Rattle.run_waves.specs.waves.Waves.{wave_at, AreApart, AreRunsOf, levels_of, runs_from};

use crate::waves::cursor::Cursor;
use model_line::Memory;
use run_signal::Tern;
use std::alloc::Global;
use std::marker::Model;

/// So many ticks in a row with one value.
#[derive(Clone, Copy)]
pub(crate) struct Run {
    pub level: Tern,
    pub ticks: u32,
}

/// A run by its end, the first tick after it. It begins where the one before it ends.
#[derive(Clone, Copy)]
pub struct Stretch {
    pub level: Tern,
    pub end: u32,
}

/// A ternary wave of at most 4,000 ticks, as runs. Contracts see its values, tick by tick.
#[derive(Drop)]
pub struct Runs {
    // By their ends, so that the run at a tick is found by halves.
    stretches: Vec<Stretch>,
    len: u32,
}

impl Model for Runs {
    ghost use Rattle.std.specs.Prelude.{List};
    ghost use Rattle.run_signal.specs.declared.tern.Tern.{Tern};
    ghost use Rattle.run_waves.specs.waves.Waves.{levels_of, runs_from, AreRunsOf};

    ghost Value = { List Tern };

    ghost view = { λ a. levels_of (runs_from 0 a.stretches.items) };

    ghost invariant = { λ a. AreRunsOf (runs_from 0 a.stretches.items) a.len };
}

impl Runs {
    /// The wave of no ticks. No memory is taken.
    pub fn new(alloc: Global) -> Runs
        ensures { result ≡ [] }
    {
        Runs {
            stretches: Vec::new(alloc),
            len: 0,
        }
    }

    /// The number of ticks.
    pub fn len(&self) -> u32
        ensures length { result ≡ length self.now }
        ensures limited { length self.now ≤ 4000 }
    {
        self.len
    }

    /// Appends so many ticks with this value. After `Memory` the wave is what it was.
    pub fn push(&mut self, level: Tern, ticks: u32) -> Result<(), Memory>
        requires some { 1 ≤ ticks }
        requires room { length self.old + ticks ≤ 4000 }
        ensures { MatchResult result
            (λ _. self.new ≡ self.old ++ replicate ticks level)
            (λ _. self.new ≡ self.old) }
    {
        let end = self.len + ticks;
        push_stretch(&mut self.stretches, level, end)?;
        self.len = end;
        Ok(())
    }

    /// The value at a tick.
    pub fn at(&self, t: u32) -> Tern
        requires { t < length self.now }
        ensures value { slice_get self.now t ≡ Some result }
        ensures rails { wave_at self.now t ≡ tern_rails result }
    {
        let mut cursor = self.cursor();
        cursor.stretch(t).level
    }

    /// The wave, to be asked tick after tick.
    pub fn cursor(&self) -> Cursor<'_>
        ensures { result ≡ self.now }
    {
        Cursor::new(self.stretches.as_slice())
    }

    /// The runs by their ends.
    pub(crate) fn stretches(&self) -> &[Stretch]
        ensures runs { AreRunsOf (runs_from 0 result.now) (length self.now) }
        ensures levels { levels_of (runs_from 0 result.now) ≡ self.now }
    {
        self.stretches.as_slice()
    }

    /// Whether both waves have the same runs.
    pub fn is_like(&self, other: &Runs) -> bool
        ensures { IsTrue result → self.now ≡ other.now }
    {
        are_like(&self.stretches, &other.stretches)
    }

    /// An equal wave.
    pub fn copy(&self, alloc: Global) -> Result<Runs, Memory>
        ensures { IfOk result (λ wave. wave ≡ self.now) }
    {
        let stretches = Vec::from_slice(alloc, &self.stretches)?;
        Ok(Runs {
            stretches,
            len: self.len,
        })
    }
}

// Appends a run up to that end, joining a last one of the same value.
fn push_stretch(stretches: &mut Vec<Stretch>, level: Tern, end: u32) -> Result<(), Memory>
    requires apart { AreApart (runs_from 0 stretches.old.items) }
    requires later { length (levels_of (runs_from 0 stretches.old.items)) < end }
    ensures { MatchResult result
        (λ _. AreApart (runs_from 0 stretches.new.items)
        × (levels_of (runs_from 0 stretches.new.items)
        ≡ levels_of (runs_from 0 stretches.old.items)
        ++ replicate (end - length (levels_of (runs_from 0 stretches.old.items))) level))
        (λ _. stretches.new.items ≡ stretches.old.items) }
{
    let count = stretches.len();
    if count > 0 && stretches[count - 1].level == level {
        stretches[count - 1].end = end;
        return Ok(());
    }
    stretches.push(Stretch { level, end })?;
    Ok(())
}

// Whether the runs are the same.
fn are_like(some: &[Stretch], others: &[Stretch]) -> bool
    ensures { IsTrue result → some.now ≡ others.now }
{
    if some.len() != others.len() {
        return false;
    }
    for i in 0..some.len() {
        if some[i].end != others[i].end || some[i].level != others[i].level {
            return false;
        }
    }
    true
}
