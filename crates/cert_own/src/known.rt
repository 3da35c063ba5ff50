//! What the proofs here rest on.

ghost use Rattle.cert_own.specs.Known.{Known};

use model_line::laws::declared_intervals_are_in_order;
use model_logic::laws::line_laws;
use model_timing::{candidates_are_inside, timings_inside_are_choices_inside};

/// The laws of lines, histories and candidates, as their crates state them.
pub fn laws_below()
    ensures { Known }
{
    line_laws();
    declared_intervals_are_in_order();
    candidates_are_inside();
    timings_inside_are_choices_inside();
}
