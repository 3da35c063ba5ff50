//! The text of a net.

ghost use Rattle.std.specs.Prelude.{◌≡◌, ◌<◌, ◌++◌, codes, decimal, length, IfOk, OnOk};
ghost use Rattle.model_line.specs.Parameters.{terminal_count, channel_count};
ghost use Rattle.model_line.specs.ParamNames.{name_at};
ghost use Rattle.model_logic.specs.Names.{HasTime};
ghost use Rattle.net_gates.specs.{Named.GateNames};
ghost use Rattle.net_compile.specs.NetText.{truth_text, place_text, channel_text, time_text};
ghost use Rattle.net_compile.specs.NetText.{pair_text, gate_text, gate_line, end_line};
ghost use Rattle.net_compile.specs.NetText.{terminal_lines, lines_below, net_text_of};

use itoa::Buffer;
use model_line::{Line, Memory, Place, channel_name, element_word};
use model_logic::Time;
use net_gates::{Compiled, Gate, GateId};
use std::alloc::Global;

/// The text of a net: the number of its gates, a line for each gate, and for each terminal the
/// lines of its key and its trip. A terminal, a channel and a parameter stand by their names.
#[tactic(auto, unfolding(crate::specs::NetText::net_text_of))]
pub fn net_text(alloc: Global, compiled: &Compiled<'_>) -> Result<Vec<u8>, Memory>
    ensures { IfOk result (λ text. text.items ≡ net_text_of compiled.now.line.now
        compiled.now.net.now) }
{
    let mut text = Vec::from_slice(alloc, b"net ")?;
    put_number(&mut text, compiled.net.len())?;
    put(&mut text, b"\n")?;
    put_gates(&mut text, compiled)?;
    put_terminals(&mut text, compiled)?;
    Ok(text)
}

fn put_gates(text: &mut Vec<u8>, compiled: &Compiled<'_>) -> Result<(), Memory>
    ensures { OnOk result (text.new.items
        ≡ text.old.items ++ lines_below (gate_line compiled.now.line.now
        compiled.now.net.now.gates) (length compiled.now.net.now.gates)) }
{
    for i in 0..compiled.net.len() {
        put_gate_line(text, compiled, i)?;
    }
    Ok(())
}

fn put_terminals(text: &mut Vec<u8>, compiled: &Compiled<'_>) -> Result<(), Memory>
    ensures { OnOk result (text.new.items
        ≡ text.old.items ++ lines_below (terminal_lines compiled.now.line.now compiled.now.net.now)
        (terminal_count compiled.now.line.now)) }
{
    for k in 0..compiled.line.terminals.len() as u32 {
        put_terminal(text, compiled, k)?;
    }
    Ok(())
}

#[tactic(auto, unfolding(crate::specs::NetText::gate_line))]
fn put_gate_line(text: &mut Vec<u8>, compiled: &Compiled<'_>, i: u32) -> Result<(), Memory>
    requires exists { i < length compiled.now.net.now.gates }
    ensures { OnOk result (text.new.items ≡ text.old.items ++ gate_line compiled.now.line.now
        compiled.now.net.now.gates i) }
{
    put_number(text, i)?;
    put(text, b" ")?;
    put_gate(text, compiled.line, compiled.net.gate(GateId(i)))?;
    put(text, b"\n")
}

#[tactic(auto, unfolding(crate::specs::NetText::terminal_lines))]
fn put_terminal(text: &mut Vec<u8>, compiled: &Compiled<'_>, k: u32) -> Result<(), Memory>
    requires exists { k < terminal_count compiled.now.line.now }
    ensures { OnOk result (text.new.items ≡ text.old.items ++ terminal_lines compiled.now.line.now
        compiled.now.net.now k) }
{
    put_end(text, b"key ", compiled.line, k, compiled.net.key_gate(k))?;
    put_end(text, b"trip ", compiled.line, k, compiled.net.trip_gate(k))
}

fn put_end(text: &mut Vec<u8>, word: &[u8], line: &Line, k: u32, id: GateId) -> Result<(), Memory>
    requires { k < terminal_count line.now }
    ensures { OnOk result (text.new.items ≡ text.old.items ++ end_line word.now line.now k id.0) }
{
    put(text, word)?;
    put_terminal_name(text, line, k)?;
    put(text, b" ")?;
    put_number(text, id.0)?;
    put(text, b"\n")
}

fn put_gate(text: &mut Vec<u8>, line: &Line, gate: &Gate) -> Result<(), Memory>
    requires { GateNames line.now gate.now }
    ensures { OnOk result (text.new.items ≡ text.old.items ++ gate_text line.now gate.now) }
{
    match *gate {
        Gate::Const(value) => put_truth(text, value),
        Gate::Seen(place) => put_place(text, line, place),
        Gate::Loss(channel) => put_channel(text, b"loss ", line, channel),
        Gate::Raw(channel) => put_channel(text, b"raw ", line, channel),
        Gate::Not(input) => put_not(text, input),
        Gate::And(left, right) => put_pair(text, b"and ", left, right),
        Gate::Or(left, right) => put_pair(text, b"or ", left, right),
        Gate::Timer(input, pickup, dropout) => put_timer(text, line, input, pickup, dropout),
        Gate::Seal(set, hold) => put_pair(text, b"seal ", set, hold),
    }
}

fn put_truth(text: &mut Vec<u8>, value: bool) -> Result<(), Memory>
    ensures { OnOk result (text.new.items ≡ text.old.items ++ truth_text value) }
{
    if value {
        put(text, b"true")
    } else {
        put(text, b"false")
    }
}

fn put_place(text: &mut Vec<u8>, line: &Line, place: Place) -> Result<(), Memory>
    requires { place.terminal < terminal_count line.now }
    ensures { OnOk result (text.new.items
        ≡ text.old.items ++ (codes "seen " ++ place_text line.now place)) }
{
    put(text, b"seen ")?;
    put_terminal_name(text, line, place.terminal)?;
    put(text, b".")?;
    put(text, element_word(place.element))
}

fn put_channel(text: &mut Vec<u8>, word: &[u8], line: &Line, channel: u32) -> Result<(), Memory>
    requires { channel < channel_count line.now }
    ensures { OnOk result (text.new.items
        ≡ text.old.items ++ (word.now ++ channel_text line.now channel)) }
{
    let name = channel_name(&line.terminals, line.channels[channel as usize]);
    put(text, word)?;
    put(text, name.bytes())
}

fn put_not(text: &mut Vec<u8>, input: GateId) -> Result<(), Memory>
    ensures { OnOk result (text.new.items ≡ text.old.items ++ (codes "not " ++ decimal input.0)) }
{
    put(text, b"not ")?;
    put_number(text, input.0)
}

fn put_pair(text: &mut Vec<u8>, word: &[u8], left: GateId, right: GateId) -> Result<(), Memory>
    ensures { OnOk result (text.new.items ≡ text.old.items ++ (word.now ++ pair_text left right)) }
{
    put(text, word)?;
    put_number(text, left.0)?;
    put(text, b" ")?;
    put_number(text, right.0)
}

fn put_timer(
    text: &mut Vec<u8>,
    line: &Line,
    input: GateId,
    pickup: Time,
    dropout: Time,
) -> Result<(), Memory>
    requires pickup { HasTime line.now pickup }
    requires dropout { HasTime line.now dropout }
    ensures { OnOk result (text.new.items
        ≡ text.old.items ++ gate_text line.now (Gate.Timer input pickup dropout)) }
{
    put(text, b"timer ")?;
    put_number(text, input.0)?;
    put(text, b" ")?;
    put_time(text, line, pickup)?;
    put(text, b" ")?;
    put_time(text, line, dropout)
}

fn put_time(text: &mut Vec<u8>, line: &Line, time: Time) -> Result<(), Memory>
    requires { HasTime line.now time }
    ensures { OnOk result (text.new.items ≡ text.old.items ++ time_text line.now time) }
{
    match time {
        Time::Zero => put(text, b"0"),
        Time::Param(i) => put(text, line.params[i as usize].name.bytes()),
    }
}

fn put_terminal_name(text: &mut Vec<u8>, line: &Line, k: u32) -> Result<(), Memory>
    requires { k < terminal_count line.now }
    ensures { OnOk result (text.new.items ≡ text.old.items ++ name_at line.now.terminals.items k) }
{
    put(text, line.terminals[k as usize].name.bytes())
}

fn put_number(text: &mut Vec<u8>, number: u32) -> Result<(), Memory>
    ensures { OnOk result (text.new.items ≡ text.old.items ++ decimal number) }
{
    let mut buffer = Buffer::new();
    put(text, buffer.format(number).as_bytes())
}

fn put(text: &mut Vec<u8>, bytes: &[u8]) -> Result<(), Memory>
    ensures { OnOk result (text.new.items ≡ text.old.items ++ bytes.now) }
{
    text.extend_from_slice(bytes)?;
    Ok(())
}
