//! What can be wrong with a text of settled trees.

ghost use Rattle.std.specs.Prelude.{◌≡◌};
ghost use Rattle.cert_settle.specs.Check.{fault_in};

use cert_claims::check::NoFault;

/// What is wrong with a script's result at a terminal.
#[derive(Clone, Copy, Drop)]
pub enum ResultFault {
    /// A `yes` of the tree that is not shown over the leaf's part of the box, under what is assumed
    /// there. Leaves are numbered from 0 in the order of the text, whatever they say.
    NotShown { terminal: u32, leaf: u32 },
    /// The timing of a `no` does not refute its obligation.
    No { terminal: u32, fault: NoFault },
}

/// The first fault of a text of settled trees: of the text itself, else of the first script one of
/// whose results does not stand. Scripts and terminals are told by their places.
#[derive(Clone, Copy, Drop)]
pub enum SettleFault {
    /// The first line, counted from 1, that leaves the grammar.
    Line(usize),
    /// A `yes` of a tree that is not shown over the leaf's part of the box, under what is assumed
    /// there. Leaves are numbered from 0 in the order of the text, whatever they say.
    NotShown {
        script: u32,
        terminal: u32,
        leaf: u32,
    },
    /// A `no` has a parameter's number outside its interval.
    Outside {
        script: u32,
        terminal: u32,
        param: u32,
        value: u32,
    },
    /// A `no` has a timing whose history meets the obligation, as this tick shows.
    Passes {
        script: u32,
        terminal: u32,
        tick: u32,
    },
}

/// The fault of a script's results, told with the script.
pub(crate) fn in_script(script: u32, fault: ResultFault) -> SettleFault
    ensures { result ≡ fault_in script fault }
{
    match fault {
        ResultFault::NotShown { terminal, leaf } => SettleFault::NotShown {
            script,
            terminal,
            leaf,
        },
        ResultFault::No { terminal, fault } => match fault {
            NoFault::Outside { param, value } => SettleFault::Outside {
                script,
                terminal,
                param,
                value,
            },
            NoFault::Passes { tick } => SettleFault::Passes {
                script,
                terminal,
                tick,
            },
        },
    }
}
