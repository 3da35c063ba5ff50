//! The timed cell of one rail.
#![tactic(auto)]

ghost use Rattle.std.specs.Prelude.{◌≡◌, ◌≤◌, nat_lt};
ghost use Rattle.run_signal.specs.{Counts.steady_of, Cells.CellNumbers, Cells.AreBounded};
ghost use Rattle.run_signal.specs.{Cells.numbers_of, Cells.fresh_numbers, Cells.numbers_after};

use std::marker::Model;

/// The timed cell of one rail: two counts beside the pickup and the dropout. Contracts see the four
/// numbers.
#[derive(Drop)]
pub struct RailCell {
    pickup: u32,
    dropout: u32,
    run: u32,
    left: u32,
}

impl Model for RailCell {
    ghost Value = { CellNumbers };

    ghost view = { λ a. numbers_of a.pickup a.dropout a.run a.left };

    ghost invariant = { λ a. AreBounded (numbers_of a.pickup a.dropout a.run a.left) };
}

impl RailCell {
    pub fn new(pickup: u32, dropout: u32) -> RailCell
        requires pickup { pickup ≤ 4000 }
        requires dropout { dropout ≤ 4000 }
        ensures { result ≡ fresh_numbers pickup dropout }
    {
        RailCell {
            pickup,
            dropout,
            run: 0,
            left: 0,
        }
    }

    /// Takes the rail at the next tick, and says whether the element is on at it.
    pub fn tick(&mut self, on: bool) -> bool
        ensures numbers { self.new ≡ numbers_after 1 self.old on }
        ensures answer { result ≡ nat_lt 0 self.new.left }
    {
        self.skip(on, 1);
        self.left > 0
    }

    /// Takes so many ticks with this rail.
    pub fn skip(&mut self, on: bool, count: u32)
        requires { count ≤ 4000 }
        ensures { self.new ≡ numbers_after count self.old on }
    {
        self.run = if on {
            (self.run + count).min(self.pickup + 1)
        } else {
            0
        };
        self.left = if self.pickup < self.run {
            self.dropout + 1
        } else {
            self.left.saturating_sub(count)
        };
    }

    /// For how many ticks with this rail the answers stay the same, up to 4,000.
    pub fn ahead(&self, on: bool) -> u32
        ensures steady { result ≡ steady_of self.now.pickup self.now.run self.now.left on }
        ensures limited { result ≤ 4000 }
        ensures bounded { AreBounded self.now }
    {
        steady_ticks(self.pickup, self.run, self.left, on)
    }
}

/// By the numbers of a cell, for how many ticks with this rail the answers stay the same, up to
/// 4,000.
pub fn steady_ticks(pickup: u32, run: u32, left: u32, on: bool) -> u32
    requires pickup { pickup ≤ 4000 }
    requires left { left ≤ 4001 }
    ensures steady { result ≡ steady_of pickup run left on }
    ensures limited { result ≤ 4000 }
{
    let wait = if on { pickup.saturating_sub(run) } else { 4000 };
    if wait < left.max(1) {
        4000
    } else if left > 1 {
        left - 1
    } else {
        wait
    }
}
