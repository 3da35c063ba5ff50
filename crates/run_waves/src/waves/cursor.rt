//! A wave that is gone along, run after run.
#![tactic(auto)]

ghost use Rattle.std.specs.Prelude.{◌≡◌, ◌<◌, ◌≤◌, ℕ, IsTrue, length};
ghost use Rattle.run_signal.specs.Terns.{tern_rails};
ghost use Rattle.run_waves.specs.waves.Waves.{HasThroughout, IsRunAt, AreApart, AreRunsOf, levels_of};
ghost use Rattle.run_waves.specs.waves.Waves.{runs_from, wave_at};

use crate::waves::runs::Stretch;
use std::marker::Model;

/// A wave that is asked tick after tick. The run at a tick is found at once where it is the run
/// that was asked for last, or the next; else by halves. Contracts see the wave.
#[derive(Drop)]
pub struct Cursor<'a> {
    stretches: &'a [Stretch],
    // The place of the run that was asked for last. It is where a search begins, and may be any.
    place: usize,
}

impl<'a> Model for Cursor<'a> {
    ghost use Rattle.std.specs.Prelude.{List, length};
    ghost use Rattle.run_signal.specs.declared.tern.Tern.{Tern};
    ghost use Rattle.run_waves.specs.waves.Waves.{levels_of, runs_from, AreRunsOf};

    ghost Value = { List Tern };

    ghost view = { λ c. levels_of (runs_from 0 c.stretches.now) };

    ghost invariant = { λ c. AreRunsOf (runs_from 0 c.stretches.now)
        (length (levels_of (runs_from 0 c.stretches.now))) };
}

impl<'a> Cursor<'a> {
    /// A cursor at the first of these runs.
    pub(crate) fn new(stretches: &'a [Stretch]) -> Cursor<'a>
        requires { AreRunsOf (runs_from 0 stretches.now)
            (length (levels_of (runs_from 0 stretches.now))) }
        ensures { result ≡ levels_of (runs_from 0 stretches.now) }
    {
        Cursor {
            stretches,
            place: 0,
        }
    }

    /// Another cursor at the same run.
    pub fn copy(&self) -> Cursor<'a>
        ensures same { result ≡ self.now }
        ensures limited { length result ≤ 4000 }
    {
        Cursor {
            stretches: self.stretches,
            place: self.place,
        }
    }

    /// The run at a tick: its value, which the wave has from the tick on until the run's end.
    pub fn stretch(&mut self, t: u32) -> Stretch
        requires { t < length self.old }
        ensures same { self.new ≡ self.old }
        ensures later { t < result.end }
        ensures inside { result.end ≤ length self.old }
        ensures limited { length self.old ≤ 4000 }
        ensures level { HasThroughout self.old result.level t result.end }
        ensures rails { (k : ℕ) → t ≤ k → k < result.end →
            wave_at self.old k ≡ tern_rails result.level }
    {
        self.place = place_near(self.stretches, self.place, t);
        self.stretches[self.place]
    }
}

// The place of the run at a tick: that place or the next, where it is one of them.
fn place_near(stretches: &[Stretch], near: usize, t: u32) -> usize
    requires apart { AreApart (runs_from 0 stretches.now) }
    requires goes_on { t < length (levels_of (runs_from 0 stretches.now)) }
    ensures { IsRunAt stretches.now t result }
{
    if is_at(stretches, near, t) {
        near
    } else if near < stretches.len() && is_at(stretches, near + 1, t) {
        near + 1
    } else {
        place_by_halves(stretches, t)
    }
}

// Whether there is a run at the place, and the tick is one of it.
fn is_at(stretches: &[Stretch], place: usize, t: u32) -> bool
    requires { AreApart (runs_from 0 stretches.now) }
    ensures { IsTrue result → IsRunAt stretches.now t place }
{
    if place >= stretches.len() || t >= stretches[place].end {
        return false;
    }
    place == 0 || stretches[place - 1].end <= t
}

// The place of the run at a tick, looked for by halves.
fn place_by_halves(stretches: &[Stretch], t: u32) -> usize
    requires apart { AreApart (runs_from 0 stretches.now) }
    requires goes_on { t < length (levels_of (runs_from 0 stretches.now)) }
    ensures { IsRunAt stretches.now t result }
{
    stretches.partition_point(|stretch| stretch.end <= t)
}
