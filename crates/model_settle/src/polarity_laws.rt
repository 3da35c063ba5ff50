//! The laws of the worst choice.

ghost use Rattle.model_settle.specs.PolarityLaws.{WorstDelaysAreRails, TheWorstChoiceIsTheRail};
ghost use Rattle.model_settle.specs.PolarityLaws.{TheWorstChoiceFails, OneRailedObligationsAreDecided};
ghost use Rattle.model_settle.specs.Demands.{TheWalkTellsTheSides};
ghost use Rattle.model_settle.specs.Leads.{AWorseChoiceMeetsLess};
ghost use Rattle.model_settle.specs.Limits.{RailsAreNotReached};
ghost use Rattle.model_settle.specs.Schemes.{SchemesAreOneRailed, OneTimingDecidesTheScript};
ghost use Rattle.model_settle.specs.Schemes.{TheBestChoiceMeets, TheWorstChoiceDecides};

use model_history::laws::history_laws;
use model_line::laws::declared_intervals_are_in_order;
use model_logic::laws::line_laws;

/// A tree is read on a rail exactly where the sides give all that the walk along the rails asks for.
pub fn the_walk_tells_the_sides()
    ensures { TheWalkTellsTheSides }
{}

/// A delay within its interval can be chosen at each tick so that what arrives is what the rail says.
pub fn worst_delays_are_rails()
    ensures { WorstDelaysAreRails }
{
    history_laws();
}

/// The worst choice lies in its box, and its history is, at each key of the cone and at the trip, the
/// rail of the interval history.
pub fn the_worst_choice_is_the_rail()
    ensures { TheWorstChoiceIsTheRail }
{
    history_laws();
    line_laws();
}

/// The history of the worst choice meets the obligation exactly where the rule is held.
pub fn the_worst_choice_fails()
    ensures { TheWorstChoiceFails }
{
    history_laws();
    line_laws();
}

/// Where a trip's cone is one-railed, every choice meets the obligation or the worst one fails it.
pub fn one_railed_obligations_are_decided()
    ensures { OneRailedObligationsAreDecided }
{
    history_laws();
    line_laws();
    declared_intervals_are_in_order();
}

/// Every key and trip of a PUTT, DTT or DCB line, and of a POTT line without weak ends, is one-railed.
pub fn schemes_are_one_railed()
    ensures { SchemesAreOneRailed }
{
    line_laws();
}

/// The worst choice over the declared intervals lies inside them, and of such a line its history
/// meets each obligation of a script exactly where the rule is held.
pub fn the_worst_choice_decides()
    ensures { TheWorstChoiceDecides }
{
    history_laws();
    line_laws();
    declared_intervals_are_in_order();
}

/// Of such a line some choice meets each obligation whose rule is not broken.
pub fn the_best_choice_meets()
    ensures { TheBestChoiceMeets }
{
    history_laws();
    line_laws();
    declared_intervals_are_in_order();
}

/// Such a line has for each script one timing that meets an obligation only where every timing does.
pub fn one_timing_decides_the_script()
    ensures { OneTimingDecidesTheScript }
{
    history_laws();
    line_laws();
    declared_intervals_are_in_order();
}

/// Where some numbers and keys are read on both rails: moving the other numbers to their ends, and
/// leaving the rest, can only turn an obligation that is met into one that is not.
pub fn a_worse_choice_meets_less()
    ensures { AWorseChoiceMeetsLess }
{
    history_laws();
    line_laws();
}

/// Where a number is asked for at both ends, or a channel is read on both rails, no choice need reach
/// the rail.
pub fn rails_are_not_reached()
    ensures { RailsAreNotReached }
{}
