//! What the proofs here rest on.

ghost use Rattle.judge_margins.specs.map.Known.{Known};

use model_line::laws::{
    counts_do_not_rest_on_the_intervals, declared_intervals_are_in_order, delays_are_parameters,
};
use model_logic::interval_laws::{
    a_changed_interval_changes_the_box, same_boxes_have_the_same_interval_history,
    the_rule_over_a_box,
};
use model_logic::laws::line_laws;

/// The laws of lines, of boxes and of lines that differ in their intervals, as their crates state
/// them.
pub fn laws_below()
    ensures { Known }
{
    counts_do_not_rest_on_the_intervals();
    declared_intervals_are_in_order();
    delays_are_parameters();
    line_laws();
    same_boxes_have_the_same_interval_history();
    a_changed_interval_changes_the_box();
    the_rule_over_a_box();
}
