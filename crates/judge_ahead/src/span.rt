//! Spans of ticks, and what is assumed over them.

/// The ticks of a terminal from `from` on, before `to`.
#[derive(Clone, Copy)]
pub struct Span {
    pub terminal: u32,
    pub from: u32,
    pub to: u32,
}

impl Span {
    /// How many ticks it has.
    pub(crate) fn ticks(self) -> u32 {
        self.to.saturating_sub(self.from)
    }

    /// One of its two cases.
    pub(crate) fn wanted(self, throughout: bool) -> Assumed {
        Assumed {
            span: self,
            throughout,
        }
    }

    /// So many of its last ticks.
    pub(crate) fn last(self, ticks: u32) -> Span {
        Span {
            terminal: self.terminal,
            from: self.to.saturating_sub(ticks),
            to: self.to,
        }
    }
}

/// One of the two: the terminal wants an echo throughout the span, or does not at some instant of it.
#[derive(Clone, Copy)]
pub struct Assumed {
    pub span: Span,
    pub throughout: bool,
}
