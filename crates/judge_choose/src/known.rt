//! What the proofs here rest on.

ghost use Rattle.judge_choose.specs.Known.{Known};

use model_line::laws::{declared_intervals_are_in_order, delays_are_parameters};
use model_logic::interval_laws::the_rule_over_a_box;
use model_logic::laws::line_laws;

/// The laws of lines and of boxes, as their crates state them.
pub fn laws_below()
    ensures { Known }
{
    line_laws();
    declared_intervals_are_in_order();
    delays_are_parameters();
    the_rule_over_a_box();
}
