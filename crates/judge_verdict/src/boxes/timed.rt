//! The timed cells of 64 lanes of values that may be unknown.

use crate::boxes::spans::Spans64;
use crate::boxes::terns::Terns64;
use model_history::laws::history_laws;
use run_signal::{Lanes64, Signal, Timed};

/// The cells of the must rails, and those of the may rails.
#[derive(Drop)]
pub struct TernsCells {
    must: <Lanes64 as Timed>::Cells,
    may: <Lanes64 as Timed>::Cells,
}

impl Timed for Terns64 {
    ghost use Rattle.judge_verdict.specs.boxes.Cells.{StandFor};

    type Cells = TernsCells;

    ghost stands_for = { λ cells pickup dropout lane recorded.
        StandFor cells.must cells.may pickup dropout lane recorded };

    fn fresh(pickup: Spans64, dropout: Spans64) -> TernsCells {
        TernsCells {
            must: Lanes64::fresh(pickup.greatest(), dropout.least()),
            may: Lanes64::fresh(pickup.least(), dropout.greatest()),
        }
    }

    fn tick(cells: &mut TernsCells, input: Terns64) -> Terns64 {
        history_laws();
        Terns64 {
            must: Lanes64::tick(&mut cells.must, input.must),
            may: Lanes64::tick(&mut cells.may, input.possible()),
        }
    }

    fn ahead(cells: &TernsCells, input: Terns64) -> u32 {
        history_laws();
        let must = Lanes64::ahead(&cells.must, input.must);
        let may = Lanes64::ahead(&cells.may, input.possible());
        must.min(may)
    }

    fn skip(cells: &mut TernsCells, input: Terns64, count: u32) {
        Lanes64::skip(&mut cells.must, input.must, count);
        Lanes64::skip(&mut cells.may, input.possible(), count);
    }
}
