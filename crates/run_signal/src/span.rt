//! Numbers of ticks, and spans of them.
#![tactic(auto)]

ghost use Rattle.std.specs.Prelude.{◌≡◌, ℕ, ◌≤◌};
ghost use Rattle.model_history.specs.Rails.{Ends};
ghost use Rattle.run_signal.specs.Spans.{AreInOrder, ends_of};

use std::marker::Model;

/// A whole number of ticks, at most 4,000. Contracts see the number.
#[derive(Clone, Copy)]
pub struct Tick {
    value: u32,
}

impl Model for Tick {
    ghost Value = { ℕ };

    ghost view = { λ a. a.value };

    ghost invariant = { λ a. a.value ≤ 4000 };

    ghost inverse = { λ value. record { value = value } };
}

impl Tick {
    pub fn new(value: u32) -> Tick
        requires { value ≤ 4000 }
        ensures { result ≡ value }
    {
        Tick { value }
    }

    pub fn value(self) -> u32
        ensures value { result ≡ self }
        ensures limited { self ≤ 4000 }
    {
        self.value
    }
}

/// The whole numbers of ticks from one to another, both at most 4,000. Contracts see the two ends.
#[derive(Clone, Copy)]
pub struct Within {
    least: u32,
    greatest: u32,
}

impl Model for Within {
    ghost Value = { Ends };

    ghost view = { λ a. ends_of a.least a.greatest };

    ghost invariant = { λ a. AreInOrder (ends_of a.least a.greatest) };

    ghost inverse = { λ ends. record { least = ends.least; greatest = ends.greatest } };
}

impl Within {
    pub fn new(least: u32, greatest: u32) -> Within
        requires ordered { least ≤ greatest }
        requires limited { greatest ≤ 4000 }
        ensures { result ≡ ends_of least greatest }
    {
        Within { least, greatest }
    }

    pub fn least(self) -> u32
        ensures least { result ≡ self.least }
        ensures in_order { AreInOrder self }
    {
        self.least
    }

    pub fn greatest(self) -> u32
        ensures greatest { result ≡ self.greatest }
        ensures in_order { AreInOrder self }
    {
        self.greatest
    }
}
