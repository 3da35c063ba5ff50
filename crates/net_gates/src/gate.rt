//! One gate of a net.

use model_line::Place;
use model_logic::Time;

/// The number of a gate in its net.
#[derive(Clone, Copy, PartialEq, Eq, Hash)]
pub struct GateId(pub u32);

/// A gate: a kind, and the numbers of its arguments.
#[derive(Clone, Copy, PartialEq, Eq, Hash)]
pub enum Gate {
    /// On always, or never.
    Const(bool),
    /// What the script shows at a terminal.
    Seen(Place),
    /// Whether this channel is lost.
    Loss(u32),
    /// What arrives over this channel, lost or not.
    Raw(u32),
    Not(GateId),
    And(GateId, GateId),
    Or(GateId, GateId),
    /// Input, pickup and dropout.
    Timer(GateId, Time, Time),
    /// Set and hold.
    Seal(GateId, GateId),
}
