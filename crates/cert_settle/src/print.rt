//! The lines of settled trees, printed.

ghost use Rattle.std.specs.Prelude.{◌≡◌, ◌++◌, ℕ, OnOk};
ghost use Rattle.std.specs.List.{All};
ghost use Rattle.cert_claims.specs.{text.Grammar.no_words, text.Text.fed};
ghost use Rattle.cert_settle.specs.Grammar.{node_text, step_text, part_line, span_line};
ghost use Rattle.cert_settle.specs.Text.{nodes_text, steps_text, IsNodeOfLine, IsKnownStep};

use crate::branch_line::param_name_at;
use cert_claims::text::{name_at, push_no, push_start};
use itoa::Buffer;
use judge_cases::CaseNode;
use model_line::{Line, Memory, Name};
use model_timing::Step;
use run_signal::Tick;

// Appends the line of a part.
fn push_part_line(text: &mut Vec<u8>, name: Name, mid: u32) -> Result<(), Memory>
    ensures { OnOk result (text.new.items ≡ text.old.items ++ fed (part_line name mid)) }
{
    let mut digits = Buffer::new();
    push_start(text, b"part", name)?;
    text.extend_from_slice(digits.format(mid).as_bytes())?;
    text.extend_from_slice(b"\n")?;
    Ok(())
}

// Appends the line of a span.
fn push_span_line(text: &mut Vec<u8>, name: Name, from: u32, to: u32) -> Result<(), Memory>
    ensures { OnOk result (text.new.items ≡ text.old.items ++ fed (span_line name from to)) }
{
    let mut first = Buffer::new();
    let mut last = Buffer::new();
    push_start(text, b"on", name)?;
    text.extend_from_slice(first.format(from).as_bytes())?;
    text.extend_from_slice(b" ")?;
    text.extend_from_slice(last.format(to).as_bytes())?;
    text.extend_from_slice(b"\n")?;
    Ok(())
}

// Appends the line of a node.
fn push_node(text: &mut Vec<u8>, line: &Line, node: CaseNode) -> Result<(), Memory>
    requires { IsNodeOfLine line.now node }
    ensures { OnOk result (text.new.items ≡ text.old.items ++ fed (node_text line.now node)) }
{
    match node {
        CaseNode::Yes => text.extend_from_slice(b"yes\n")?,
        CaseNode::Undecided => text.extend_from_slice(b"undecided\n")?,
        CaseNode::Parted { param, mid } => {
            push_part_line(text, param_name_at(line, param), mid)?
        }
        CaseNode::Wanted { terminal, from, to } => {
            push_span_line(text, name_at(line, terminal as usize), from, to)?
        }
    }
    Ok(())
}

/// Appends the lines of a tree, its nodes in preorder.
pub(crate) fn push_nodes(text: &mut Vec<u8>, line: &Line, nodes: &[CaseNode]) -> Result<(), Memory>
    requires { All (IsNodeOfLine line.now) nodes.now }
    ensures { OnOk result (text.new.items ≡ text.old.items ++ nodes_text line.now nodes.now) }
{
    for node in nodes {
        push_node(text, line, *node)?;
    }
    Ok(())
}

// Appends the line of a step.
fn push_step(text: &mut Vec<u8>, line: &Line, step: Step<Tick>) -> Result<(), Memory>
    requires { IsKnownStep line.now step }
    ensures { OnOk result (text.new.items ≡ text.old.items ++ fed (step_text line.now step)) }
{
    let mut from = Buffer::new();
    let mut value = Buffer::new();
    text.extend_from_slice(b"step ")?;
    text.extend_from_slice(param_name_at(line, step.param).bytes())?;
    text.extend_from_slice(b"@")?;
    text.extend_from_slice(from.format(step.from).as_bytes())?;
    text.extend_from_slice(b" ")?;
    text.extend_from_slice(value.format(step.value.value()).as_bytes())?;
    text.extend_from_slice(b"\n")?;
    Ok(())
}

/// Appends the lines of steps.
pub(crate) fn push_steps(
    text: &mut Vec<u8>,
    line: &Line,
    steps: &[Step<Tick>],
) -> Result<(), Memory>
    requires { All (IsKnownStep line.now) steps.now }
    ensures { OnOk result (text.new.items ≡ text.old.items ++ steps_text line.now steps.now) }
{
    for step in steps {
        push_step(text, line, *step)?;
    }
    Ok(())
}

/// Appends the line of a `no`.
pub(crate) fn push_fails(text: &mut Vec<u8>, numbers: &[u32]) -> Result<(), Memory>
    ensures { OnOk result (text.new.items ≡ text.old.items ++ fed (no_words numbers.now)) }
{
    push_no(text, numbers)?;
    text.extend_from_slice(b"\n")?;
    Ok(())
}
