//! The line of a node, read.

ghost use Rattle.std.specs.Prelude.{◌≡◌, ◌≢◌, ◌<◌, ◌^◌, ℕ, MatchOption};
ghost use Rattle.model_logic.specs.Choice.{declared_box};
ghost use Rattle.model_line.specs.Parameters.{param_count};
ghost use Rattle.model_line.specs.NamesByNumber.{parameter_name};
ghost use Rattle.judge_split.specs.{declared.node.Node.Node};
ghost use Rattle.model_logic.specs.Boxes.{CanSplit};
ghost use Rattle.cert_split.specs.text.Grammar.{MayStand, node_text, split_line};

use base_text::lines::{after_name, is, number_in};
use judge_split::{Node, can_split, middles_are_below_the_greatest_interval};
use model_line::{Line, Name};

// Where this is the line of a split of the parameter of this name: its middle.
fn mid_in(bytes: &[u8], name: Name) -> Option<u32>
    ensures { MatchOption result
        ((mid : ℕ) → mid < 2 ^ 32 → bytes.now ≢ split_line name mid)
        (λ mid. bytes.now ≡ split_line name mid) }
{
    let text = after_name(bytes, b"split", name.bytes())?;
    number_in(text)
}

/// The name of a parameter.
pub(crate) fn param_name_at(line: &Line, param: u32) -> Name
    requires { param < param_count line.now }
    ensures { result ≡ parameter_name line.now param }
{
    line.params[param as usize].name
}

// The split of this line, at a parameter where the part can be split.
fn split_in(line: &Line, part: &Line, bytes: &[u8]) -> Option<(u32, u32)>
    requires { param_count part.now ≡ param_count line.now }
    ensures { MatchOption result
        ((param mid : ℕ) → CanSplit part.now (declared_box part.now) param mid →
        bytes.now ≢ split_line (parameter_name line.now param) mid)
        (λ at. (at.1 < 2 ^ 32) × CanSplit part.now (declared_box part.now) at.0 at.1
        × (bytes.now ≡ split_line (parameter_name line.now at.0) at.1)) }
{
    middles_are_below_the_greatest_interval();
    for p in 0..line.param_count() {
        if let Some(mid) = mid_in(bytes, param_name_at(line, p)) {
            if can_split(part, p, mid) {
                return Some((p, mid));
            }
        }
    }
    None
}

/// The node of this line, over a part of the box, with at most `depth` splits above one another.
pub(crate) fn node_in(line: &Line, part: &Line, depth: u32, bytes: &[u8]) -> Option<Node>
    requires { param_count part.now ≡ param_count line.now }
    ensures { MatchOption result
        ((node : Node) → MayStand part.now depth (declared_box part.now) node →
        bytes.now ≢ node_text line.now node)
        (λ node. MayStand part.now depth (declared_box part.now) node
        × (bytes.now ≡ node_text line.now node)) }
{
    if is(bytes, b"yes") {
        return Some(Node::Yes);
    }
    if is(bytes, b"undecided") {
        return Some(Node::Undecided);
    }
    if depth == 0 {
        return None;
    }
    let (param, mid) = split_in(line, part, bytes)?;
    Some(Node::Split { param, mid })
}
