//! The laws of covers.

ghost use Rattle.judge_choose.specs.ChooseLaws.{AHeldCoverIsMet, AHeldCoverIsMetBetweenTicks};
ghost use Rattle.judge_choose.specs.ChooseLaws.{EveryIntervalInsideACoverIsHeld};
ghost use Rattle.judge_choose.specs.ChooseLaws.{TheDeclaredPositionIsTheDeclaredBox};

use crate::known::laws_below;
use model_fine::fine_laws::what_is_held_is_met_between_ticks;

/// Where an obligation is held over the cover of positions, it is held with every interval, of
/// whatever width, from the least end at the first position to the greatest end at the last one.
pub fn every_interval_inside_a_cover_is_held()
    ensures { EveryIntervalInsideACoverIsHeld }
{
    laws_below();
}

/// And every history of every choice in it meets the obligation.
pub fn a_held_cover_is_met()
    ensures { AHeldCoverIsMet }
{
    laws_below();
}

/// And so does every history of every choice of fractions of a tick in it.
pub fn a_held_cover_is_met_between_ticks()
    ensures { AHeldCoverIsMetBetweenTicks }
{
    laws_below();
    what_is_held_is_met_between_ticks();
}

/// At the declared position the line is as declared.
pub fn the_declared_position_is_the_declared_box()
    ensures { TheDeclaredPositionIsTheDeclaredBox }
{
    laws_below();
}
