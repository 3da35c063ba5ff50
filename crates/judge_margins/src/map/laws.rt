//! The laws of cells.

ghost use Rattle.std.specs.Prelude.{◌≤◌, ℕ, List, length};
ghost use Rattle.model_line.specs.{declared.line.Line.Line, SetBounds.SameButParams};
ghost use Rattle.judge_margins.specs.{map.Placed.IsPlaced, map.MapLaws.AHeldCellIsMet};
ghost use Rattle.judge_margins.specs.map.MapLaws.{ACellIsOfThePlacedLine};

use crate::map::known::laws_below;

/// A line with intervals moved differs from the line in its intervals alone.
pub fn what_is_placed_is_a_part()
    ensures { (line other : Line) (params : List ℕ) (least n : ℕ) → n ≤ length params →
        IsPlaced line params least n other → SameButParams line other }
{}

/// In a cell that is held every history of every choice meets every obligation.
pub fn a_held_cell_is_met()
    ensures { AHeldCellIsMet }
{
    laws_below();
}

/// The box of a cell is the declared box of the line whose intervals are placed there, axis after
/// axis.
pub fn a_cell_is_of_the_placed_line()
    ensures { ACellIsOfThePlacedLine }
{
    laws_below();
}
