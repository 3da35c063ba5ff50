//! The laws of gates and nets.

ghost use Rattle.model_line.specs.{declared.line.Line.Line, SetBounds.SameButParams};
ghost use Rattle.net_gates.specs.{NetOf.NetOf, NetOf.IsNetOf, NetLaws.GatesStandForTheirTrees};

use model_line::laws::counts_do_not_rest_on_the_intervals;
use model_logic::interval_laws::trees_do_not_rest_on_the_intervals;

/// A gate stands for its own kind over the trees of its arguments, and names what they name.
pub fn gates_stand_for_their_trees()
    ensures { GatesStandForTheirTrees }
{}

/// A net of a line is a net of it whatever its intervals are.
pub fn nets_do_not_rest_on_the_intervals()
    ensures { (line other : Line) (net : NetOf) → SameButParams line other →
        IsNetOf line net → IsNetOf other net }
{
    counts_do_not_rest_on_the_intervals();
    trees_do_not_rest_on_the_intervals();
}
