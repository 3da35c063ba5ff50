//! What parts of the logic are to a protection engineer, and formulas that have such a name.

ghost use Rattle.std.specs.Prelude.{◌≡◌};
ghost use Rattle.model_plain.specs.Roles.{explains};

use crate::formula::Formula;
use model_line::Place;

/// What a part is: what a terminal sees, at once or timed; of a channel by its number whether it is
/// lost, what arrives over it, what is received over it, whether its window is open and whether it
/// is locked out; of a terminal the guard against current reversal, the zone 2 that has waited for
/// a blocking signal, the echo, the permission of all others, and the signal of any other.
#[derive(Clone, Copy)]
pub enum Role {
    Seen(Place),
    Timed(Place),
    Lost(u32),
    Raw(u32),
    Received(u32),
    Window(u32),
    Lockout(u32),
    Guard(u32),
    Coordination(u32),
    Echo(u32),
    Permission(u32),
    AnyReceived(u32),
}

impl Role {
    /// Whether it says why a terminal keys or trips, beside what it sees.
    pub fn explains(self) -> bool
        ensures { result ≡ explains self }
    {
        match self {
            Role::Received(_)
            | Role::Window(_)
            | Role::Lockout(_)
            | Role::Guard(_)
            | Role::Coordination(_)
            | Role::Echo(_) => true,
            Role::Seen(_)
            | Role::Timed(_)
            | Role::Lost(_)
            | Role::Raw(_)
            | Role::Permission(_)
            | Role::AnyReceived(_) => false,
        }
    }
}

/// A part of the logic with what it is: the formula names no parts itself.
#[derive(Drop)]
pub struct NamedPart {
    pub role: Role,
    pub formula: Formula,
}
