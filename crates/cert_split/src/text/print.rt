//! The lines of split trees, printed.

ghost use Rattle.std.specs.Prelude.{◌≡◌, ◌++◌, OnOk};
ghost use Rattle.std.specs.List.{All};
ghost use Rattle.cert_claims.specs.{text.Grammar.no_words, text.Text.fed};
ghost use Rattle.cert_split.specs.text.Grammar.{split_line, node_text};
ghost use Rattle.cert_split.specs.text.Text.{nodes_text, IsNodeOfLine};

use crate::text::node_line::param_name_at;
use cert_claims::text::{push_no, push_start};
use itoa::Buffer;
use judge_split::Node;
use model_line::{Line, Memory, Name};

// Appends the line of a split.
fn push_split(text: &mut Vec<u8>, name: Name, mid: u32) -> Result<(), Memory>
    ensures { OnOk result (text.new.items ≡ text.old.items ++ fed (split_line name mid)) }
{
    let mut digits = Buffer::new();
    push_start(text, b"split", name)?;
    text.extend_from_slice(digits.format(mid).as_bytes())?;
    text.extend_from_slice(b"\n")?;
    Ok(())
}

// Appends the line of a node.
fn push_node(text: &mut Vec<u8>, line: &Line, node: Node) -> Result<(), Memory>
    requires { IsNodeOfLine line.now node }
    ensures { OnOk result (text.new.items ≡ text.old.items ++ fed (node_text line.now node)) }
{
    match node {
        Node::Yes => text.extend_from_slice(b"yes\n")?,
        Node::Undecided => text.extend_from_slice(b"undecided\n")?,
        Node::Split { param, mid } => push_split(text, param_name_at(line, param), mid)?,
    }
    Ok(())
}

/// Appends the lines of a tree, its nodes in preorder.
pub(crate) fn push_nodes(text: &mut Vec<u8>, line: &Line, nodes: &[Node]) -> Result<(), Memory>
    requires { All (IsNodeOfLine line.now) nodes.now }
    ensures { OnOk result (text.new.items ≡ text.old.items ++ nodes_text line.now nodes.now) }
{
    for node in nodes {
        push_node(text, line, *node)?;
    }
    Ok(())
}

/// Appends the line of a `no`.
pub(crate) fn push_fails(text: &mut Vec<u8>, numbers: &[u32]) -> Result<(), Memory>
    ensures { OnOk result (text.new.items ≡ text.old.items ++ fed (no_words numbers.now)) }
{
    push_no(text, numbers)?;
    text.extend_from_slice(b"\n")?;
    Ok(())
}
