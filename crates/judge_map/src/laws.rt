//! What the proofs here rest on.

ghost use Rattle.judge_map.specs.Laws.{Laws};

use judge_margins::map::a_cell_is_of_the_placed_line;
use model_fine::fine_laws::whole_ticks_are_the_case_of_one;
use model_line::laws::{
    counts_do_not_rest_on_the_intervals, declared_intervals_are_in_order, delays_are_parameters,
};
use model_logic::interval_laws::{
    histories_do_not_rest_on_the_intervals, same_boxes_have_the_same_interval_history,
};
use model_logic::laws::line_laws;
use model_settle::polarity_laws::{
    schemes_are_one_railed, the_worst_choice_fails, the_worst_choice_is_the_rail,
};
use model_timing::timings_inside_are_choices_inside;

/// The laws of lines, boxes, cells and the worst choice, as their crates state them.
pub(crate) fn laws_below()
    ensures { Laws }
{
    line_laws();
    counts_do_not_rest_on_the_intervals();
    declared_intervals_are_in_order();
    delays_are_parameters();
    histories_do_not_rest_on_the_intervals();
    same_boxes_have_the_same_interval_history();
    whole_ticks_are_the_case_of_one();
    the_worst_choice_is_the_rail();
    the_worst_choice_fails();
    schemes_are_one_railed();
    timings_inside_are_choices_inside();
    a_cell_is_of_the_placed_line();
}
