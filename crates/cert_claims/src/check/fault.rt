//! What can be wrong with a certificate.

ghost use Rattle.std.specs.Prelude.{◌≡◌};
ghost use Rattle.cert_claims.specs.check.Check.{fault_in};

use crate::check::claim::ClaimFault;
use crate::check::no::NoFault;
use run_signal::Tern;

/// The first fault of a certificate: of its text, else of the first script whose claims are not
/// acceptable. Scripts and terminals are told by their places.
#[derive(Clone, Copy, Drop)]
pub enum CheckFault {
    /// The first line, counted from 1, that leaves the grammar.
    Line(u32),
    /// A claimed key does not cover what follows from the claims at this tick.
    NotCovered {
        script: u32,
        terminal: u32,
        tick: u32,
        claimed: Tern,
        derived: Tern,
    },
    /// A `yes` is not held by the trips that follow from the claims.
    NotHeld {
        script: u32,
        terminal: u32,
    },
    /// A `no` has a parameter's number outside its interval.
    Outside {
        script: u32,
        terminal: u32,
        param: u32,
        value: u32,
    },
    /// A `no` has numbers whose history meets the obligation, as this tick shows.
    Passes {
        script: u32,
        terminal: u32,
        tick: u32,
    },
}

/// The fault of a script's claims, told with the script.
pub(crate) fn in_script(script: u32, fault: ClaimFault) -> CheckFault
    ensures { result ≡ fault_in script fault }
{
    match fault {
        ClaimFault::NotCovered(uncovered) => CheckFault::NotCovered {
            script,
            terminal: uncovered.terminal,
            tick: uncovered.tick,
            claimed: uncovered.claimed,
            derived: uncovered.derived,
        },
        ClaimFault::NotHeld(terminal) => CheckFault::NotHeld { script, terminal },
        ClaimFault::No { terminal, fault } => match fault {
            NoFault::Outside { param, value } => CheckFault::Outside {
                script,
                terminal,
                param,
                value,
            },
            NoFault::Passes { tick } => CheckFault::Passes {
                script,
                terminal,
                tick,
            },
        },
    }
}
