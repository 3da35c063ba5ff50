//! What the proofs here rest on.

ghost use Rattle.judge_split.specs.Known.{Known};

use model_line::laws::{counts_do_not_rest_on_the_intervals, declared_intervals_are_in_order};
use model_logic::interval_laws::{
    a_box_with_another_interval, a_changed_interval_changes_the_box,
    histories_do_not_rest_on_the_intervals, the_rule_over_a_box,
};
use model_logic::laws::line_laws;
use model_timing::{candidates_are_inside, timings_inside_are_choices_inside};

/// The laws of lines, boxes and candidates, as their crates state them.
pub fn laws_below()
    ensures { Known }
{
    line_laws();
    counts_do_not_rest_on_the_intervals();
    histories_do_not_rest_on_the_intervals();
    a_changed_interval_changes_the_box();
    a_box_with_another_interval();
    declared_intervals_are_in_order();
    the_rule_over_a_box();
    candidates_are_inside();
    timings_inside_are_choices_inside();
}
