//! What the proofs here rest on.

ghost use Rattle.judge_report.specs.Known.{Known};

use model_line::laws::counts_do_not_rest_on_the_intervals;
use model_logic::interval_laws::{a_changed_interval_changes_the_box, the_rule_over_a_box};
use model_logic::laws::line_laws;

/// The laws of boxes and of lines that differ in their intervals, as their crate states them.
pub fn laws_below()
    ensures { Known }
{
    line_laws();
    counts_do_not_rest_on_the_intervals();
    a_changed_interval_changes_the_box();
    the_rule_over_a_box();
}
