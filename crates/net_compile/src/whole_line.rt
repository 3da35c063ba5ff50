//! The net of a whole line.

ghost use Rattle.std.specs.Prelude.{IfOk};
ghost use Rattle.net_gates.specs.NetOf.{IsNetOf};

use crate::builder::NetBuilder;
use crate::terminal_gates::terminal_gates;
use model_line::{Line, Memory};
use net_gates::Net;
use std::alloc::Global;

/// The net of a line. Whatever the scheme, it has at most 512 gates.
pub fn compile(alloc: Global, line: &Line) -> Result<Net, Memory>
    ensures { IfOk result (λ net. IsNetOf line.now net) }
{
    let mut net = NetBuilder::new(alloc);
    let mut keys = Vec::new(alloc);
    let mut trips = Vec::new(alloc);
    for terminal in 0..line.terminals.len() as u32 {
        let ends = terminal_gates(alloc, &mut net, line, terminal)?;
        keys.push(ends.key)?;
        trips.push(ends.trip)?;
    }
    net.finish(alloc, line.channels.len() as u32, keys, trips)
}
