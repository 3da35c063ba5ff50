//! What the proofs here rest on.

ghost use Rattle.cert_settle.specs.Known.{Known};

use model_line::laws::{
    counts_do_not_rest_on_the_intervals, declared_intervals_are_in_order, delays_are_parameters,
};
use model_names::name_laws::parameters_have_names_of_their_own;

/// The laws of lines and of their parameters, as their crates state them.
pub(crate) fn laws_below()
    ensures { Known }
{
    counts_do_not_rest_on_the_intervals();
    declared_intervals_are_in_order();
    delays_are_parameters();
    parameters_have_names_of_their_own();
}
