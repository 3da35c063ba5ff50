//! The timed cells of 64 lanes.
#![tactic(auto)]

ghost use Rattle.std.specs.Prelude.{◌≡◌, ℕ, ◌<◌, ◌≤◌, nat_lt, slice_index};
ghost use Rattle.run_signal.specs.Bits.{bit_on};
ghost use Rattle.run_signal.specs.Cells.{fresh_numbers, numbers_after};
ghost use Rattle.run_signal.specs.Vectors.{CellVectors, AreBoundedInEachLane, vectors_of};
ghost use Rattle.run_signal.specs.Vectors.{numbers_in};
ghost use Rattle.run_signal.specs.Vectors.{steady_in};

use crate::lanes::{Lanes64, Ticks64};
use crate::vectors::{lasting, least_steady, take_left, take_runs, ticks_of};
use crate::{Signal, Timed};
use model_history::laws::history_laws;
use std::marker::Model;

/// The timed cells of 64 lanes, side by side in four arrays. Contracts see the four numbers of
/// each lane.
#[derive(Drop)]
pub struct LaneCells {
    pickup: [u16; 64],
    dropout: [u16; 64],
    run: [u16; 64],
    left: [u16; 64],
}

impl Model for LaneCells {
    ghost Value = { CellVectors };

    ghost view = { λ a. vectors_of a.pickup a.dropout a.run a.left };

    ghost invariant = { λ a.
        AreBoundedInEachLane (vectors_of a.pickup a.dropout a.run a.left) };
}

impl LaneCells {
    pub fn new(pickup: &Ticks64, dropout: &Ticks64) -> LaneCells
        ensures { (lane : ℕ) → lane < 64 →
            numbers_in result lane
            ≡ fresh_numbers (slice_index pickup.now lane) (slice_index dropout.now lane) }
    {
        LaneCells {
            pickup: ticks_of(pickup),
            dropout: ticks_of(dropout),
            run: [0; 64],
            left: [0; 64],
        }
    }

    /// Takes the input of the next tick, and answers the lanes whose elements are on at it.
    pub fn tick(&mut self, input: Lanes64) -> Lanes64
        ensures numbers { (lane : ℕ) → lane < 64 →
            numbers_in self.new lane
            ≡ numbers_after 1 (numbers_in self.old lane) (bit_on input lane) }
        ensures answer { (lane : ℕ) → lane < 64 →
            bit_on result lane ≡ nat_lt 0 (slice_index self.new.left lane) }
    {
        self.skip(input, 1);
        lasting(&self.left)
    }

    /// Takes so many ticks with this input.
    pub fn skip(&mut self, input: Lanes64, count: u32)
        requires { count ≤ 4000 }
        ensures { (lane : ℕ) → lane < 64 →
            numbers_in self.new lane
            ≡ numbers_after count (numbers_in self.old lane) (bit_on input lane) }
    {
        let count = count as u16;
        take_runs(&mut self.run, &self.pickup, input, count);
        take_left(
            &mut self.left,
            &self.pickup,
            &self.dropout,
            &self.run,
            count,
        );
    }

    /// For how many ticks with this input the answers of all lanes stay the same, up to 4,000.
    pub fn ahead(&self, input: Lanes64) -> u32
        ensures under { (lane : ℕ) → lane < 64 →
            result ≤ steady_in self.now lane (bit_on input lane) }
        ensures met { result < 4000 → (lane : ℕ) × (lane < 64) ×
            (result ≡ steady_in self.now lane (bit_on input lane)) }
        ensures limited { result ≤ 4000 }
        ensures bounded { AreBoundedInEachLane self.now }
    {
        least_steady(&self.pickup, &self.run, &self.left, input) as u32
    }
}

impl Timed for Lanes64 {
    ghost use Rattle.std.specs.Prelude.{slice_index};
    ghost use Rattle.model_history.specs.Rails.{single};
    ghost use Rattle.run_signal.specs.{Cells.RailsStandFor, Vectors.numbers_in};

    // Both rails of a lane are the same, and have the same numbers.
    type Cells = LaneCells;

    ghost stands_for = { λ cells pickup dropout lane recorded.
        RailsStandFor (numbers_in cells lane) (numbers_in cells lane)
        (single (slice_index pickup lane)) (single (slice_index dropout lane)) recorded };

    fn fresh(pickup: Ticks64, dropout: Ticks64) -> LaneCells {
        LaneCells::new(&pickup, &dropout)
    }

    fn tick(cells: &mut LaneCells, input: Lanes64) -> Lanes64 {
        history_laws();
        cells.tick(input)
    }

    fn ahead(cells: &LaneCells, input: Lanes64) -> u32 {
        history_laws();
        cells.ahead(input)
    }

    fn skip(cells: &mut LaneCells, input: Lanes64, count: u32) {
        cells.skip(input, count)
    }
}
