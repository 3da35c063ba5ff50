//! The timed cells of a truth value that may be unknown.
#![tactic(auto)]

use crate::rail::RailCell;
use crate::span::Within;
use crate::tern::Tern;
use crate::{Signal, Timed};
use model_history::laws::history_laws;

/// A timed cell for each rail.
#[derive(Drop)]
pub struct TernCells {
    must: RailCell,
    may: RailCell,
}

impl Timed for Tern {
    ghost use Rattle.run_signal.specs.Cells.{RailsStandFor};

    type Cells = TernCells;

    ghost stands_for = { λ cells pickup dropout _ recorded.
        RailsStandFor cells.must cells.may pickup dropout recorded };

    fn fresh(pickup: Within, dropout: Within) -> TernCells {
        TernCells {
            must: RailCell::new(pickup.greatest(), dropout.least()),
            may: RailCell::new(pickup.least(), dropout.greatest()),
        }
    }

    fn tick(cells: &mut TernCells, input: Tern) -> Tern {
        history_laws();
        let must = cells.must.tick(input.must(0));
        let may = cells.may.tick(input.may(0));
        Tern::from_rails(must, may)
    }

    fn ahead(cells: &TernCells, input: Tern) -> u32 {
        history_laws();
        let must = cells.must.ahead(input.must(0));
        let may = cells.may.ahead(input.may(0));
        must.min(may)
    }

    fn skip(cells: &mut TernCells, input: Tern, count: u32) {
        cells.must.skip(input.must(0), count);
        cells.may.skip(input.may(0), count);
    }
}
