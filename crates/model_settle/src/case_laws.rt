//! The laws of interval histories under assumptions.

ghost use Rattle.model_settle.specs.CaseLaws.{SameTreesAreEqual, EachBoxHasOneHistoryUnder};
ghost use Rattle.model_settle.specs.CaseLaws.{WhatIsShownOfOneIsShown, WhatIsShownRestsOnTheBox};

use model_history::laws::history_laws;
use model_logic::interval_laws::trees_do_not_rest_on_the_intervals;
use model_logic::laws::line_laws;

/// The test of trees is equality.
pub fn same_trees_are_equal()
    ensures { SameTreesAreEqual }
{}

/// For each box and what is assumed the line has exactly one interval history; where nothing is
/// assumed it is that of the box.
pub fn each_box_has_one_history_under()
    ensures { EachBoxHasOneHistoryUnder }
{
    history_laws();
    line_laws();
}

/// What is shown over one interval history under assumptions is so over each.
pub fn what_is_shown_of_one_is_shown()
    ensures { WhatIsShownOfOneIsShown }
{
    history_laws();
    line_laws();
}

/// Boxes that are the same, and lines that differ in their intervals alone, have the same interval
/// histories under assumptions, and the same is shown over them.
pub fn what_is_shown_rests_on_the_box()
    ensures { WhatIsShownRestsOnTheBox }
{
    history_laws();
    line_laws();
    trees_do_not_rest_on_the_intervals();
}
