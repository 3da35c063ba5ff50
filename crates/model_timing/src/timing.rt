//! A timing.

ghost use Rattle.std.specs.Prelude.{◌≡◌, ◌<◌, ◌≤◌, ◌&&◌, ◌==◌, [], length, slice_set, IsTrue};
ghost use Rattle.std.specs.Prelude.{IfOk, IsFalse, OnOk};
ghost use Rattle.std.specs.List.{list_any};

use crate::places::place_after;
use crate::step::Step;
use model_line::Memory;
use run_signal::Tick;
use std::alloc::Global;
use std::marker::Model;

/// One number of ticks for each parameter, in the order of the line's list, and the steps of the
/// delays that move within the run, ascending by parameter and tick.
#[derive(Drop)]
pub struct Timing {
    values: Vec<Tick>,
    steps: Vec<Step<Tick>>,
}

// contracts see a timing as its two lists
impl Model for Timing {
    ghost use Rattle.std.specs.Prelude.{IsTrue};
    ghost use Rattle.model_timing.specs.Timing.{TimingValues, ascend};

    ghost Value = { TimingValues };

    ghost view = { λ t. record { values = t.values.items; steps = t.steps.items } };

    ghost invariant = { λ t. IsTrue (ascend t.steps.items) };
}

impl Timing {
    ghost use Rattle.model_timing.specs.Timing.{ascend, with_step};

    /// A timing whose delays stay as they are.
    pub fn new(values: Vec<Tick>) -> Timing
        ensures { result ≡ record { values = values.items; steps = [] } }
    {
        let steps = Vec::new(*values.allocator());
        Timing { values, steps }
    }

    /// A timing whose delays move by these steps.
    pub fn with_steps(values: Vec<Tick>, steps: Vec<Step<Tick>>) -> Timing
        requires { IsTrue (ascend steps.items) }
        ensures { result ≡ record { values = values.items; steps = steps.items } }
    {
        Timing { values, steps }
    }

    pub fn values(&self) -> &[Tick]
        ensures { result.now ≡ self.now.values }
    {
        self.values.as_slice()
    }

    pub fn steps(&self) -> &[Step<Tick>]
        ensures same { result.now ≡ self.now.steps }
        ensures ascending { IsTrue (ascend self.now.steps) }
    {
        self.steps.as_slice()
    }

    /// The same timing once more.
    pub fn copy(&self, alloc: Global) -> Result<Timing, Memory>
        ensures { IfOk result (λ copy. copy ≡ self.now) }
    {
        let values = Vec::from_slice(alloc, self.values())?;
        let steps = Vec::from_slice(alloc, self.steps())?;
        Ok(Timing::with_steps(values, steps))
    }

    /// Sets a parameter's number.
    pub fn set(&mut self, param: u32, value: Tick)
        requires { param < length self.old.values }
        ensures { self.new ≡ record {
          values = slice_set self.old.values param value;
          steps = self.old.steps;
        } }
    {
        self.values[param as usize] = value;
    }

    /// Adds a step at its place.
    pub fn insert(&mut self, step: Step<Tick>) -> Result<(), Memory>
        requires { IsFalse (list_any (λ s. (s.param == step.param) && (s.from == step.from))
            self.old.steps) }
        ensures { OnOk result (self.new ≡ record {
          values = self.old.values;
          steps = with_step step self.old.steps;
        }) }
    {
        let at = place_after(self.steps.as_slice(), step.param, step.from);
        self.steps.insert(at, step)?;
        Ok(())
    }
}
