//! Why no record of a file is picked.

/// Why no record of a file is picked.
#[derive(Clone, Copy)]
pub enum Unpicked {
    /// No script is named, and there are so many records, not one.
    Several(usize),
    /// No record is of the script that is named.
    Missing,
}
