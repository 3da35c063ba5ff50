//! What the proofs here rest on.

ghost use Rattle.cert_split.specs.text.Known.{Known};

use judge_split::{a_part_stands_for_its_box, middles_are_below_the_greatest_interval};
use model_line::laws::{
    counts_do_not_rest_on_the_intervals, declared_intervals_are_in_order, parameters_are_numbered,
};
use model_names::name_laws::parameters_have_names_of_their_own;

/// The laws of lines and of their parts, as their crates state them.
pub(crate) fn laws_below()
    ensures { Known }
{
    counts_do_not_rest_on_the_intervals();
    declared_intervals_are_in_order();
    parameters_are_numbered();
    parameters_have_names_of_their_own();
    a_part_stands_for_its_box();
    middles_are_below_the_greatest_interval();
}
