//! What is asked of records of the field.

/// A line file and a map, by their names in the store, and what is to be made of the records.
#[derive(Clone, Copy)]
pub struct RecordsAsk<'a> {
    pub line: &'a str,
    pub map: &'a str,
    pub work: RecordsWork,
}

/// What is made of the records.
#[derive(Clone, Copy)]
pub enum RecordsWork {
    /// A scripts file with the one script of what the terminals saw.
    Scripts,
    /// A record file of what they keyed and when they tripped.
    Record,
    /// A table of what the sources of the map tell.
    Show,
}
