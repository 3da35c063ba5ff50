//! What a gate is called.

ghost use Rattle.std.specs.Prelude.{◌≡◌};
ghost use Rattle.call_why.specs.Parts.{first_of as first_of_two, told_role as told_role_of};

use model_plain::Role;

/// What a gate is called: by its role, or as the trip of a terminal or what it sends.
#[derive(Clone, Copy)]
pub enum Part {
    Is(Role),
    Trip(u32),
    Key(u32),
}

/// A role, where it is told: not what the script shows before it is timed, and not what arrives.
pub fn told_role(role: Option<Role>) -> Option<Part>
    ensures { result ≡ told_role_of role }
{
    match role {
        None => None,
        Some(role) => told(role),
    }
}

fn told(role: Role) -> Option<Part>
    ensures { result ≡ told_role_of (Some role) }
{
    match role {
        Role::Seen(_) | Role::Raw(_) => None,
        Role::Timed(_)
        | Role::Lost(_)
        | Role::Received(_)
        | Role::Window(_)
        | Role::Lockout(_)
        | Role::Guard(_)
        | Role::Coordination(_)
        | Role::Echo(_)
        | Role::Permission(_)
        | Role::AnyReceived(_) => Some(Part::Is(role)),
    }
}

/// The first of the two that is there.
pub fn first_of(one: Option<Part>, other: Option<Part>) -> Option<Part>
    ensures { result ≡ first_of_two one other }
{
    match one {
        Some(part) => Some(part),
        None => other,
    }
}
