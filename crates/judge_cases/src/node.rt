//! The nodes of a tree of parts and spans.

/// A node of a tree, which stands in preorder: in its part of the box, under what is assumed there,
/// each history meets the obligation; nothing is shown; the part is cut at `mid` of a parameter, which
/// both parts have; or two cases are told apart, over a span of ticks of a weak terminal.
#[derive(Clone, Copy, PartialEq, Eq)]
pub enum CaseNode {
    Yes,
    Undecided,
    /// The first tree stands for the numbers up to `mid`, the second for those from `mid` on.
    Parted { param: u32, mid: u32 },
    /// The ticks from `from` on, before `to`. The first tree stands for an echo wanted throughout the
    /// span, the second for one that is not wanted at some instant of it.
    Wanted { terminal: u32, from: u32, to: u32 },
}
