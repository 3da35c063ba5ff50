//! The timed cell of a truth value that is known.
#![tactic(auto)]

use crate::level::Level;
use crate::rail::RailCell;
use crate::span::Tick;
use crate::{Signal, Timed};
use model_history::laws::history_laws;

impl Timed for Level {
    ghost use Rattle.model_history.specs.Rails.{single};
    ghost use Rattle.run_signal.specs.Cells.{RailsStandFor};

    // Both rails are the same, and have the same numbers.
    type Cells = RailCell;

    ghost stands_for = { λ cells pickup dropout _ recorded.
        RailsStandFor cells cells (single pickup) (single dropout) recorded };

    fn fresh(pickup: Tick, dropout: Tick) -> RailCell {
        RailCell::new(pickup.value(), dropout.value())
    }

    fn tick(cells: &mut RailCell, input: Level) -> Level {
        history_laws();
        Level::known(cells.tick(input.must(0)))
    }

    fn ahead(cells: &RailCell, input: Level) -> u32 {
        history_laws();
        cells.ahead(input.must(0))
    }

    fn skip(cells: &mut RailCell, input: Level, count: u32) {
        cells.skip(input.must(0), count)
    }
}
