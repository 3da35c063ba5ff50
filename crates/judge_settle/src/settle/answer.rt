//! Answers.

ghost use Rattle.std.specs.Prelude.{◌≡◌};
ghost use Rattle.std.specs.List.{list_any};
ghost use Rattle.judge_settle.specs.settle.Words.{by_of_nodes, by_word as word_of_by};
ghost use Rattle.judge_settle.specs.settle.Words.{choices_word as word_of_choices};
ghost use Rattle.judge_settle.specs.settle.Words.{is_case as is_case_of, is_part as is_part_of};

use judge_cases::CaseNode;
use model_timing::Timing;

/// What is known of an obligation. A tree is given by its nodes in preorder.
#[derive(Drop)]
pub enum Answer {
    /// Each leaf of the tree is yes: every choice inside meets the obligation, of whole ticks and of
    /// fractions.
    Held(Vec<CaseNode>),
    /// The timing, which may have steps, is inside, and its history fails it. Where `every`, the
    /// interval rules break it: every choice inside fails it.
    Fails { timing: Timing, every: bool },
    /// Some leaf is undecided. The interval rules leave the obligation unknown, and each of the line's
    /// candidates meets it.
    Open(Vec<CaseNode>),
}

/// By what an obligation was settled, or left open.
#[derive(Clone, Copy)]
pub enum By {
    /// The interval rules over the declared box: a tree of one leaf.
    Rules,
    /// A timing that was tried, in a line whose scheme does not make every trip one-railed.
    Candidate,
    /// The worst corner, in a line whose scheme does.
    Corner,
    /// A tree of parts of the declared box.
    Parts,
    /// A tree with cases of echoes.
    Cases,
}

/// The word for what an obligation was settled by, as tables have it.
pub fn by_word(by: By) -> &'static [u8]
    ensures { result.now ≡ word_of_by by }
{
    match by {
        By::Rules => b"rules",
        By::Candidate => b"candidate",
        By::Corner => b"corner",
        By::Parts => b"parts",
        By::Cases => b"cases",
    }
}

/// For which choices an obligation that fails does so, as tables have it: `every` or `some`.
pub fn choices_word(every: bool) -> &'static [u8]
    ensures { result.now ≡ word_of_choices every }
{
    if every { b"every" } else { b"some" }
}

/// The answer to an obligation, and by what.
#[derive(Drop)]
pub struct Settled {
    pub answer: Answer,
    pub by: By,
}

/// By what a tree with these nodes settles an obligation.
pub fn by_tree(nodes: &[CaseNode]) -> By
    ensures { result ≡ by_of_nodes nodes.now }
{
    if has_case(nodes) {
        By::Cases
    } else if has_part(nodes) {
        By::Parts
    } else {
        By::Rules
    }
}

fn has_case(nodes: &[CaseNode]) -> bool
    ensures { result ≡ list_any is_case_of nodes.now }
{
    nodes.iter().any(|node| is_case(node))
}

fn has_part(nodes: &[CaseNode]) -> bool
    ensures { result ≡ list_any is_part_of nodes.now }
{
    nodes.iter().any(|node| is_part(node))
}

fn is_case(node: &CaseNode) -> bool
    ensures { result ≡ is_case_of node.now }
{
    matches!(node, CaseNode::Wanted { .. })
}

fn is_part(node: &CaseNode) -> bool
    ensures { result ≡ is_part_of node.now }
{
    matches!(node, CaseNode::Parted { .. })
}
