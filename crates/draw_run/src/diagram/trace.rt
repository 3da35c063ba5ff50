//! What the rows of a diagram are of.

ghost use Rattle.std.specs.Prelude.{◌≡◌, ◌++◌, ◌<◌, OnOk, IfOk, length};
ghost use Rattle.std.specs.List.{All, flat_map};
ghost use Rattle.model_history.specs.Each.{each_below};
ghost use Rattle.model_plain.specs.Roles.{HasItsTree};
ghost use Rattle.draw_run.specs.diagram.Traces.{logic_at, logic_of_part, logic_row};
ghost use Rattle.model_line.specs.Parameters.{terminal_count, channel_count};
ghost use Rattle.draw_run.specs.diagram.Traces.{traces_of, traces_at, seen_at, loss_at};
ghost use Rattle.draw_run.specs.diagram.Traces.{IsTraceOf};

use draw_gates::roles::find_gate;
use model_line::{Element, Line, Memory, Place};
use model_plain::{NamedPart, Role, named_parts};
use net_gates::Compiled;
use run_waves::waves::the_first_tick_is_the_least;
use std::alloc::Global;

/// What a row is of: what a terminal sees; whether a channel is lost, by its number; a gate by its
/// number, with its role; what a terminal keys; whether it trips.
#[derive(Clone, Copy)]
pub enum Trace {
    Seen(Place),
    Lost(u32),
    Logic(Role, u32),
    Key(u32),
    Trip(u32),
}

/// What the rows of a line are of, terminals in line order. Of each terminal: what it sees, the
/// channels into it in line order, the gates of the roles that explain, its key, its trip.
pub fn traces(alloc: Global, compiled: &Compiled<'_>) -> Result<Vec<Trace>, Memory>
    ensures traces { IfOk result (λ traces. traces.items
        ≡ traces_of compiled.now.line.now compiled.now.net.now.gates) }
    ensures of_line { IfOk result (λ traces.
        All (IsTraceOf compiled.now.line.now (length compiled.now.net.now.gates)) traces.items) }
{
    the_first_tick_is_the_least();
    let mut all = Vec::new(alloc);
    for k in 0..compiled.line.terminals.len() {
        push_terminal(alloc, &mut all, compiled, k as u32)?;
    }
    Ok(all)
}

fn push_terminal(
    alloc: Global,
    all: &mut Vec<Trace>,
    compiled: &Compiled<'_>,
    k: u32,
) -> Result<(), Memory>
    requires { k < terminal_count compiled.now.line.now }
    ensures { OnOk result (all.new.items ≡ all.old.items
        ++ traces_at compiled.now.line.now compiled.now.net.now.gates k) }
{
    push_seen(all, k)?;
    push_losses(all, compiled.line, k)?;
    push_logic(alloc, all, compiled, k)?;
    all.push(Trace::Key(k))?;
    all.push(Trace::Trip(k))?;
    Ok(())
}

fn push_seen(all: &mut Vec<Trace>, k: u32) -> Result<(), Memory>
    ensures { OnOk result (all.new.items ≡ all.old.items ++ seen_at k) }
{
    let seen = |element: Element| Trace::Seen(Place {
        element,
        terminal: k,
    });
    all.extend_from_slice(&[
        seen(Element::Z1),
        seen(Element::Z2),
        seen(Element::Rv),
        seen(Element::Uv),
        seen(Element::Cur),
    ])?;
    Ok(())
}

fn push_losses(all: &mut Vec<Trace>, line: &Line, k: u32) -> Result<(), Memory>
    ensures { OnOk result (all.new.items
        ≡ all.old.items ++ each_below (channel_count line.now) (loss_at line.now k)) }
{
    for c in 0..line.channels.len() {
        push_loss(all, line, k, c as u32)?;
    }
    Ok(())
}

fn push_loss(all: &mut Vec<Trace>, line: &Line, k: u32, c: u32) -> Result<(), Memory>
    requires { c < channel_count line.now }
    ensures { OnOk result (all.new.items ≡ all.old.items ++ loss_at line.now k c) }
{
    if line.channels[c as usize].to == k {
        all.push(Trace::Lost(c))?;
    }
    Ok(())
}

// Appends the gates of what a terminal receives and makes of it.
fn push_logic(
    alloc: Global,
    all: &mut Vec<Trace>,
    compiled: &Compiled<'_>,
    k: u32,
) -> Result<(), Memory>
    requires { k < terminal_count compiled.now.line.now }
    ensures { OnOk result (all.new.items ≡ all.old.items
        ++ logic_at compiled.now.line.now compiled.now.net.now.gates k) }
{
    let parts = named_parts(alloc, compiled.line, k)?;
    push_parts(all, compiled, parts.as_slice())
}

fn push_parts(
    all: &mut Vec<Trace>,
    compiled: &Compiled<'_>,
    parts: &[NamedPart],
) -> Result<(), Memory>
    requires { All (HasItsTree compiled.now.line.now) parts.now }
    ensures { OnOk result (all.new.items
        ≡ all.old.items ++ flat_map
        (logic_of_part compiled.now.line.now compiled.now.net.now.gates) parts.now) }
{
    for part in parts {
        push_part(all, compiled, part)?;
    }
    Ok(())
}

#[tactic(auto, unfolding(model_plain::specs::Roles::HasItsTree))]
fn push_part(all: &mut Vec<Trace>, compiled: &Compiled<'_>, part: &NamedPart) -> Result<(), Memory>
    requires { HasItsTree compiled.now.line.now part.now }
    ensures { OnOk result (all.new.items ≡ all.old.items
        ++ logic_of_part compiled.now.line.now compiled.now.net.now.gates part.now) }
{
    let gate = find_gate(compiled.net, &part.formula);
    push_gate(all, part.role.explains(), part.role, gate)
}

fn push_gate(
    all: &mut Vec<Trace>,
    explains: bool,
    role: Role,
    gate: Option<u32>,
) -> Result<(), Memory>
    ensures { OnOk result (all.new.items ≡ all.old.items ++ logic_row explains role gate) }
{
    match gate {
        Some(gate) if explains => all.push(Trace::Logic(role, gate))?,
        _ => {}
    }
    Ok(())
}
