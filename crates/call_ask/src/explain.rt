//! What an explanation is asked for.

/// In which form a timing is told that explains a record.
#[derive(Clone, Copy)]
pub enum ExplainForm {
    /// A table with a record for each change.
    Changes,
    /// A timings file with the timing, under the name `explained`.
    Timings,
}
