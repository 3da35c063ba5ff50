//! How a command that is done ends.

/// What a command that is done found: the exit statuses 0 to 3, in this order.
#[derive(Clone, Copy)]
pub enum Done {
    /// Nothing that speaks against the line.
    Good,
    /// Some obligation fails at a choice of delays, or some record of the field is impossible.
    SomeNo,
    /// No obligation is known to fail, and some is undecided; no record of the field is impossible,
    /// and some is open; or a parameter has no margin.
    SomeUndecided,
    /// A certificate is rejected.
    Rejected,
}
