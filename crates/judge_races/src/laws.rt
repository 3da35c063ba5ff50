//! The laws of races.

ghost use Rattle.judge_races.specs.Spare.{ATreeAsksForItsOperands, RacesAreTheLeast};
ghost use Rattle.judge_races.specs.Spare.{WhatReachesNowIsOn};

use model_history::laws::history_laws;
use model_logic::laws::{
    a_wider_box_covers, each_box_has_one_interval_history, each_line_has_a_choice_inside,
    trees_name_the_line,
};

/// With each operand lasting longer by fewer ticks than each race of a conjunction lacks, the
/// conjunction is on at no tick: neither by the may rails nor in the history of any choice inside.
pub fn races_are_the_least()
    ensures { RacesAreTheLeast }
{
    a_wider_box_covers();
    each_box_has_one_interval_history();
    each_line_has_a_choice_inside();
    trees_name_the_line();
}

/// A tree is on exactly where all operands of one of its alternatives are.
pub fn a_tree_asks_for_its_operands()
    ensures { ATreeAsksForItsOperands }
{}

/// An operand reaches a tick without lasting longer exactly where it is on.
pub fn what_reaches_now_is_on()
    ensures { WhatReachesNowIsOn }
{
    history_laws();
}
