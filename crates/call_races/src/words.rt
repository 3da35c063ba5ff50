//! The words of operands, by their gates.

ghost use Rattle.std.specs.Prelude.{◌≡◌, ◌<◌, ◌++◌, length, OnOk};
ghost use Rattle.model_line.specs.Channels.{from_of};
ghost use Rattle.model_line.specs.NamesByNumber.{terminal_name};
ghost use Rattle.net_gates.specs.Formulas.{formula_of, kind_over};
ghost use Rattle.net_gates.specs.Gates.{HasArguments};
ghost use Rattle.judge_races.specs.Gates.{AreIn};
ghost use Rattle.net_gates.specs.Formulas.{trees_of};
ghost use Rattle.call_races.specs.Words.{behind_dot as behind_dot_of, denied_word as denied_word_of};
ghost use Rattle.call_races.specs.Words.{either_word, is_signal as is_signal_tree, marked_words};
ghost use Rattle.call_races.specs.Words.{operand_word, raw_word, signal_word, time_word as time_word_of};
ghost use Rattle.call_races.specs.Words.{timed_word as timed_word_of};

use model_line::{Line, Memory, element_word, name_of_parameter, name_of_terminal};
use model_logic::Time;
use net_gates::{Compiled, Gate, GateId, Net};

/// The gate of this number; its arguments are gates of the net.
pub fn gate_at(net: &Net, id: GateId) -> Gate
    requires { id.0 < length net.now.gates }
    ensures stands { formula_of net.now.gates id.0 ≡ kind_over net.now.gates result }
    ensures arguments { HasArguments (length net.now.gates) result }
{
    let _laws = net.len();
    *net.gate(id)
}

// What stands behind the first dot.
fn behind_dot(name: &[u8]) -> &[u8]
    ensures { result.now ≡ behind_dot_of name.now }
{
    match name {
        [] => name,
        [byte, more @ ..] => {
            if *byte == b'.' {
                more
            } else {
                behind_dot(more)
            }
        }
    }
}

// The name of a time without its terminal's.
fn time_word(line: &Line, time: Time) -> &[u8]
    ensures { result.now ≡ time_word_of line.now time }
{
    match time {
        Time::Zero => b"",
        Time::Param(param) => behind_dot(name_of_parameter(line, param)),
    }
}

// The word of what has to last for a time.
fn timed_word<'a>(compiled: &Compiled<'a>, pickup: Time, input: GateId) -> &'a [u8]
    requires { input.0 < length compiled.now.net.now.gates }
    ensures { result.now ≡ timed_word_of compiled.now.line.now pickup
        (formula_of compiled.now.net.now.gates input.0) }
{
    match gate_at(compiled.net, input) {
        Gate::Seen(place) => element_word(place.element),
        _ => time_word(compiled.line, pickup),
    }
}

// The word of what must not be.
fn denied_word(net: &Net, id: GateId) -> &'static [u8]
    requires { id.0 < length net.now.gates }
    ensures { result.now ≡ denied_word_of (formula_of net.now.gates id.0) }
{
    match gate_at(net, id) {
        Gate::Seal(_, _) => b"not locked",
        Gate::Timer(_, _, _) => b"no guard",
        Gate::Const(_) => b"no guard",
        _ => b"no block",
    }
}

// The name of the terminal that sends over a channel.
fn sender_name(line: &Line, channel: u32) -> &[u8]
    ensures { result.now ≡ terminal_name line.now (from_of line.now.channels.items channel) }
{
    match line.channels.get(channel as usize) {
        Some(channel) => name_of_terminal(line, channel.from),
        None => name_of_terminal(line, 0),
    }
}

// Appends the word of what arrives over a channel.
fn push_raw(text: &mut Vec<u8>, compiled: &Compiled<'_>, id: GateId) -> Result<(), Memory>
    requires { id.0 < length compiled.now.net.now.gates }
    ensures { OnOk result (text.new.items ≡ text.old.items
        ++ raw_word compiled.now.line.now (formula_of compiled.now.net.now.gates id.0)) }
{
    if let Gate::Raw(channel) = gate_at(compiled.net, id) {
        text.extend_from_slice(b"signal ")?;
        text.extend_from_slice(sender_name(compiled.line, channel))?;
    }
    Ok(())
}

// The same of a signal that is not lost.
fn push_signal(text: &mut Vec<u8>, compiled: &Compiled<'_>, id: GateId) -> Result<(), Memory>
    requires { id.0 < length compiled.now.net.now.gates }
    ensures { OnOk result (text.new.items ≡ text.old.items
        ++ signal_word compiled.now.line.now (formula_of compiled.now.net.now.gates id.0)) }
{
    match gate_at(compiled.net, id) {
        Gate::And(a, _) => push_raw(text, compiled, a),
        _ => Ok(()),
    }
}

fn is_signal(net: &Net, id: GateId) -> bool
    requires { id.0 < length net.now.gates }
    ensures { result ≡ is_signal_tree (formula_of net.now.gates id.0) }
{
    match gate_at(net, id) {
        Gate::And(a, _) => matches!(gate_at(net, a), Gate::Raw(_)),
        _ => false,
    }
}

// Appends the word of one or another.
fn push_either(
    text: &mut Vec<u8>,
    compiled: &Compiled<'_>,
    a: GateId,
    b: GateId,
) -> Result<(), Memory>
    requires first { a.0 < length compiled.now.net.now.gates }
    requires second { b.0 < length compiled.now.net.now.gates }
    ensures { OnOk result (text.new.items ≡ text.old.items ++ either_word compiled.now.line.now
        (formula_of compiled.now.net.now.gates a.0) (formula_of compiled.now.net.now.gates b.0)) }
{
    if is_signal(compiled.net, b) {
        Ok(text.extend_from_slice(b"any signal")?)
    } else {
        push_signal(text, compiled, a)?;
        Ok(text.extend_from_slice(b" or window")?)
    }
}

/// Appends the word of an operand.
pub fn push_operand(text: &mut Vec<u8>, compiled: &Compiled<'_>, id: GateId) -> Result<(), Memory>
    requires { id.0 < length compiled.now.net.now.gates }
    ensures { OnOk result (text.new.items ≡ text.old.items
        ++ operand_word compiled.now.line.now (formula_of compiled.now.net.now.gates id.0)) }
{
    match gate_at(compiled.net, id) {
        Gate::Timer(a, pickup, _) => Ok(text.extend_from_slice(timed_word(compiled, pickup, a))?),
        Gate::Not(a) => Ok(text.extend_from_slice(denied_word(compiled.net, a))?),
        Gate::And(a, _) => push_raw(text, compiled, a),
        Gate::Or(a, b) => push_either(text, compiled, a, b),
        _ => Ok(()),
    }
}

/// Appends the words of those operands that are marked, the first behind this, the others behind `;`.
pub fn push_marked(
    text: &mut Vec<u8>,
    compiled: &Compiled<'_>,
    before: &[u8],
    marks: &[bool],
    ids: &[GateId],
) -> Result<(), Memory>
    requires { AreIn compiled.now.net.now.gates ids.now }
    ensures { OnOk result (text.new.items ≡ text.old.items
        ++ marked_words compiled.now.line.now before.now marks.now
        (trees_of compiled.now.net.now.gates ids.now)) }
{
    match marks {
        [] => Ok(()),
        [mark, marks @ ..] => match ids {
            [] => Ok(()),
            [id, ids @ ..] => {
                if *mark {
                    push_behind(text, compiled, before, *id)?;
                    push_marked(text, compiled, b";", marks, ids)
                } else {
                    push_marked(text, compiled, before, marks, ids)
                }
            }
        },
    }
}

/// Appends the word of an operand behind this.
pub fn push_behind(
    text: &mut Vec<u8>,
    compiled: &Compiled<'_>,
    before: &[u8],
    id: GateId,
) -> Result<(), Memory>
    requires { id.0 < length compiled.now.net.now.gates }
    ensures { OnOk result (text.new.items ≡ text.old.items
        ++ (before.now ++ operand_word compiled.now.line.now
        (formula_of compiled.now.net.now.gates id.0))) }
{
    text.extend_from_slice(before)?;
    push_operand(text, compiled, id)
}
