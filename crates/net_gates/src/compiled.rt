//! A line with its net.

ghost use Rattle.net_gates.specs.{NetOf.IsNetOf, NetOfLaws.IsNetOf-prop};

use crate::net::Net;
use model_line::Line;

/// A line and its net: each key and each trip of the net stands for the tree of the line's logic. Runs,
/// verdicts and checks take it, so none can be of a net of another line.
#[derive(Clone, Copy)]
pub struct Compiled<'a> {
    pub line: &'a Line,
    pub net: &'a Net,
    pub ghost of_line: { IsNetOf line.now net.now } by { IsNetOf-prop line.now net.now },
}
