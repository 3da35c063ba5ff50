//! The check of the numbers of a `no`.

ghost use Rattle.std.specs.Prelude.{◌≡◌, ◌<◌, length, IfOk, MatchOption};
ghost use Rattle.model_line.specs.Parameters.{terminal_count, param_count};
ghost use Rattle.model_line.specs.Fits.{Fits};
ghost use Rattle.cert_claims.specs.{check.Refutations.IsRefutation, check.NoFaults.IsNoFault};

use crate::check::inside::first_outside;
use crate::check::refutation::met_at;
use model_line::{Memory, Script};
use net_gates::Compiled;
use std::alloc::Global;

/// Why numbers do not refute an obligation.
#[derive(Clone, Copy)]
pub enum NoFault {
    /// The first parameter whose number is outside its interval, and that number.
    Outside { param: u32, value: u32 },
    /// Their history meets the obligation. Internal fault: it first trips at this tick. External
    /// fault: the tick is the horizon.
    Passes { tick: u32 },
}

/// What is wrong with the numbers of a `no`. None where they refute the obligation of the terminal.
pub fn check_no(
    alloc: Global,
    compiled: &Compiled<'_>,
    script: &Script,
    terminal: u32,
    values: &[u32],
) -> Result<Option<NoFault>, Memory>
    requires fits { Fits compiled.now.line.now script.now }
    requires terminal { terminal < terminal_count compiled.now.line.now }
    requires numbers { length values.now ≡ param_count compiled.now.line.now }
    ensures { IfOk result (λ wrong. MatchOption wrong
        (IsRefutation compiled.now.line.now script.now terminal values.now)
        (λ fault. IsNoFault compiled.now.line.now script.now terminal values.now fault)) }
{
    if let Some(param) = first_outside(compiled.line, values) {
        let value = values[param as usize];
        return Ok(Some(NoFault::Outside { param, value }));
    }
    match met_at(alloc, compiled, script, terminal, values)? {
        Some(tick) => Ok(Some(NoFault::Passes { tick })),
        None => Ok(None),
    }
}
