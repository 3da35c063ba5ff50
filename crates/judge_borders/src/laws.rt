//! The laws of parts within one another, and of lines that are played on.

ghost use Rattle.judge_borders.specs.Laws.{WhatIsKnownOfAPartIsKnownWithin};
ghost use Rattle.judge_borders.specs.Onward.{EachHistoryGoesOn};

use model_fine::fine_laws::each_fine_choice_has_one_history;
use model_fine::loose_laws::histories_go_on;

/// What is known of a part is known of each part within it.
pub fn what_is_known_of_a_part_is_known_within()
    ensures { WhatIsKnownOfAPartIsKnownWithin }
{}

/// Each history of a line goes on in one of the line that is played on beyond its horizon, which meets what is asked
/// exactly where it does: so what a rule says over that line is so of the line itself.
pub fn each_history_goes_on()
    ensures { EachHistoryGoesOn }
{
    each_fine_choice_has_one_history();
    histories_go_on();
}
