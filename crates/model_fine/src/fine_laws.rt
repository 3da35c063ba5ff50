//! The laws of fine ticks.

ghost use Rattle.model_fine.specs.Laws.{ElementsAreCut, RailsAreCut, TreesAreCut, HistoriesAreCut};
ghost use Rattle.model_fine.specs.Laws.{FineHistoriesAreCovered, TheRuleSpeaksForEveryFineChoice};
ghost use Rattle.model_fine.specs.Laws.{TheRuleSpeaksForCoveredFineHistories};
ghost use Rattle.model_fine.specs.Laws.{WhatIsHeldIsMetBetweenTicks, WholeTicksAreTheCaseOfOne};
ghost use Rattle.model_fine.specs.Laws.{WholeTicksDecide, EachFineChoiceHasOneHistory};
ghost use Rattle.model_fine.specs.Laws.{FinerTicksKeepWhatIsMet};
ghost use Rattle.model_fine.specs.{Laws.PartsThatShareTheirEnds, Limits.NumbersSayNothingBetween};

use model_history::laws::history_laws;
use model_line::laws::counts_do_not_rest_on_the_intervals;
use model_logic::interval_laws::trees_do_not_rest_on_the_intervals;
use model_logic::laws::line_laws;
use model_settle::polarity_laws::the_worst_choice_decides;

/// An element whose input and times are cut has at a fine tick the value that it has at the tick.
pub fn elements_are_cut()
    ensures { ElementsAreCut }
{
    history_laws();
}

/// So have the rails of the interval rules, though a delay may be any number of fine ticks within
/// its ends.
pub fn rails_are_cut()
    ensures { RailsAreCut }
{
    history_laws();
}

/// So has each tree, over keys that are cut.
pub fn trees_are_cut()
    ensures { TreesAreCut }
{
    history_laws();
}

/// The history of a choice, cut, is the history of the choice, cut, within the same box, and it meets
/// what it met.
pub fn histories_are_cut()
    ensures { HistoriesAreCut }
{
    history_laws();
}

/// For each fine choice whose delays are at least a fine tick, as they are within a box whose delays
/// are at least a tick, the line has exactly one history.
pub fn each_fine_choice_has_one_history()
    ensures { EachFineChoiceHasOneHistory }
{
    history_laws();
    line_laws();
}

/// The interval history in whole ticks covers the fine history of each fine choice within its box,
/// and the pair of each tree over it covers the tree's value. So do claims that are covered over the
/// box, with the trips that are derived from them.
pub fn fine_histories_are_covered()
    ensures { FineHistoriesAreCovered }
{
    history_laws();
    line_laws();
}

/// Where pairs in whole ticks cover a fine history, a rule that is held says that the obligation is
/// met, and one that is broken that it is not.
pub fn the_rule_speaks_for_covered_fine_histories()
    ensures { TheRuleSpeaksForCoveredFineHistories }
{
    history_laws();
    line_laws();
}

/// Over a box a rule that is held says that every fine choice within meets the obligation, and one
/// that is broken that every fine choice within fails it.
pub fn the_rule_speaks_for_every_fine_choice()
    ensures { TheRuleSpeaksForEveryFineChoice }
{
    history_laws();
    line_laws();
}

/// What is held over a box in whole ticks, as over the declared intervals, is met by every choice of
/// fractions within.
pub fn what_is_held_is_met_between_ticks()
    ensures { WhatIsHeldIsMetBetweenTicks }
{
    history_laws();
    line_laws();
}

/// Where ticks are cut into one, a fine choice and its history are a choice and its history. So where
/// every fine choice meets an obligation every choice does, and where some choice fails it, so does a
/// fine one.
pub fn whole_ticks_are_the_case_of_one()
    ensures { WholeTicksAreTheCaseOfOne }
{}

/// Of a line whose trips are one-railed by its scheme an obligation is met by every choice of
/// fractions exactly where it is met by every choice of whole ticks.
pub fn whole_ticks_decide()
    ensures { WholeTicksDecide }
{
    history_laws();
    line_laws();
    the_worst_choice_decides();
}

/// What every choice of fractions meets, every choice of fractions meets in finer ticks, where the
/// intervals are the same or narrower.
pub fn finer_ticks_keep_what_is_met()
    ensures { FinerTicksKeepWhatIsMet }
{
    counts_do_not_rest_on_the_intervals();
    trees_do_not_rest_on_the_intervals();
    line_laws();
}

/// Where the halves of a box share their end, each fine choice of the box lies in one of them.
pub fn parts_that_share_their_ends()
    ensures { PartsThatShareTheirEnds }
{}

/// What is so at two whole numbers that follow one another need not be so between them.
pub fn numbers_say_nothing_between()
    ensures { NumbersSayNothingBetween }
{}
