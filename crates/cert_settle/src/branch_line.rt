//! The line of a node, read.

ghost use Rattle.std.specs.Prelude.{◌≡◌, ◌≢◌, ◌<◌, ◌^◌, ℕ, MatchOption};
ghost use Rattle.model_line.specs.Parameters.{param_count};
ghost use Rattle.model_line.specs.NamesByNumber.{parameter_name};
ghost use Rattle.model_logic.specs.Choice.{Box};
ghost use Rattle.model_settle.specs.{Assumed.HasSpan, Parts.CanPart};
ghost use Rattle.judge_cases.specs.AssumedAt.{span_at};
ghost use Rattle.judge_cases.specs.declared.node.CaseNode.{CaseNode};
ghost use Rattle.cert_settle.specs.Grammar.{MayStand, node_text, part_line, span_line};
ghost use Rattle.cert_settle.specs.{Grammar.name_of_terminal, Reading.IsOverBox};

use crate::number::{number_after, numbers_after};
use base_text::lines::is;
use cert_claims::text::name_at;
use judge_cases::{CaseNode, View, can_part, has_span};
use model_line::{Line, Name};

/// How many parts and pairs of cases may still stand above one another, and how many may still come.
#[derive(Clone, Copy)]
pub(crate) struct Limits {
    pub depth: u32,
    pub room: u32,
}

/// The ticks of a terminal from `from` on, before `to`.
#[derive(Clone, Copy)]
struct Span {
    terminal: u32,
    from: u32,
    to: u32,
}

/// The name of a parameter.
pub(crate) fn param_name_at(line: &Line, param: u32) -> Name
    requires { param < param_count line.now }
    ensures { result ≡ parameter_name line.now param }
{
    line.params[param as usize].name
}

// The part of this line, at a parameter where the box of the view can be parted.
fn part_in(line: &Line, view: &View, bytes: &[u8]) -> Option<(u32, u32)>
    ensures { (box : Box) → IsOverBox line.now box view.now → MatchOption result
        ((param mid : ℕ) → mid < 2 ^ 32 → CanPart line.now box param mid →
        bytes.now ≢ part_line (parameter_name line.now param) mid)
        (λ at. (at.1 < 2 ^ 32) × CanPart line.now box at.0 at.1
        × (bytes.now ≡ part_line (parameter_name line.now at.0) at.1)) }
{
    for p in 0..line.param_count() {
        if let Some(mid) = number_after(bytes, b"part", param_name_at(line, p)) {
            if can_part(line, view, p, mid) {
                return Some((p, mid));
            }
        }
    }
    None
}

// The span of this line, at a weak terminal and ticks of the run.
fn span_in(line: &Line, bytes: &[u8]) -> Option<Span>
    ensures { MatchOption result
        ((terminal from to : ℕ) → HasSpan line.now (span_at terminal from to) →
        bytes.now ≢ span_line (name_of_terminal line.now terminal) from to)
        (λ span. HasSpan line.now (span_at span.terminal span.from span.to)
        × (bytes.now ≡ span_line (name_of_terminal line.now span.terminal) span.from span.to)) }
{
    for k in 0..line.terminals.len() {
        let terminal = k as u32;
        if let Some((from, to)) = numbers_after(bytes, b"on", name_at(line, k)) {
            if has_span(line, terminal, from, to) {
                return Some(Span { terminal, from, to });
            }
        }
    }
    None
}

/// The node of this line, over the box of a view.
pub(crate) fn node_in(line: &Line, view: &View, limits: Limits, bytes: &[u8]) -> Option<CaseNode>
    ensures { (box : Box) → IsOverBox line.now box view.now → MatchOption result
        ((node : CaseNode) →
        MayStand line.now limits.room (record { depth = limits.depth; box = box }) node →
        bytes.now ≢ node_text line.now node)
        (λ node. MayStand line.now limits.room (record { depth = limits.depth; box = box }) node
        × (bytes.now ≡ node_text line.now node)) }
{
    if is(bytes, b"yes") {
        return Some(CaseNode::Yes);
    }
    if is(bytes, b"undecided") {
        return Some(CaseNode::Undecided);
    }
    if limits.depth == 0 || limits.room == 0 {
        return None;
    }
    if let Some((param, mid)) = part_in(line, view, bytes) {
        return Some(CaseNode::Parted { param, mid });
    }
    let span = span_in(line, bytes)?;
    Some(CaseNode::Wanted {
        terminal: span.terminal,
        from: span.from,
        to: span.to,
    })
}
