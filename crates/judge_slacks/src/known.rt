//! What the proofs here rest on.

ghost use Rattle.judge_slacks.specs.Known.{Known};

use model_line::laws::{declared_intervals_are_in_order, delays_are_parameters};
use model_logic::interval_laws::the_rule_over_a_box;
use model_logic::laws::line_laws;
use model_settle::polarity_laws::{
    schemes_are_one_railed, the_worst_choice_fails, the_worst_choice_is_the_rail,
};

/// The laws of lines, of boxes and of the worst choice, as their crates state them.
pub fn laws_below()
    ensures { Known }
{
    line_laws();
    declared_intervals_are_in_order();
    delays_are_parameters();
    the_rule_over_a_box();
    the_worst_choice_is_the_rail();
    the_worst_choice_fails();
    schemes_are_one_railed();
}
