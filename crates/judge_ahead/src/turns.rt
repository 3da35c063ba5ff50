//! Where what a script shows turns.

ghost use Rattle.std.specs.Prelude.{◌<◌};

use crate::lists::push;
use model_line::{Line, Memory, Script, loss, seen};
use net_gates::{Gate, GateId, Net};
use std::alloc::Global;

/// From this tick on a gate shows this.
#[derive(Clone, Copy)]
pub struct Turn {
    pub tick: u32,
    pub gate: u32,
    pub on: bool,
}

/// The turns of all gates that show what a script does, by tick. Each gate is off before the first.
pub fn turns_of(
    alloc: Global,
    line: &Line,
    net: &Net,
    script: &Script,
) -> Result<Vec<Turn>, Memory> {
    let mut turns = Vec::new(alloc);
    for tick in 0..line.horizon {
        if tick == 0 || is_end(script, tick) {
            push_turns(net, script, tick, &mut turns)?;
        }
    }
    Ok(turns)
}

// Whether a span begins or ends at a tick.
fn is_end(script: &Script, tick: u32) -> bool {
    for span in &script.spans {
        if span.from == tick || span.to == tick {
            return true;
        }
    }
    false
}

// Adds the turns at a tick to those before.
fn push_turns(net: &Net, script: &Script, tick: u32, turns: &mut Vec<Turn>) -> Result<(), Memory> {
    for gate in 0..net.len() {
        let shows = *net.gate(GateId(gate));
        let on = is_shown(script, shows, tick);
        let was_on = tick > 0 && is_shown(script, shows, tick - 1);
        if on != was_on {
            push(turns, Turn { tick, gate, on })?;
        }
    }
    Ok(())
}

// What the script shows of a gate at a tick; of one that is computed nothing.
fn is_shown(script: &Script, gate: Gate, t: u32) -> bool {
    match gate {
        Gate::Seen(place) => seen(script, place, t),
        Gate::Loss(channel) => loss(script, channel, t),
        _ => false,
    }
}
