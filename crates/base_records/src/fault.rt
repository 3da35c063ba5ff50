//! How the fault of a file of records is printed.

use std::fmt;

/// Writes a fault's printed name and, where it is of one record, the record's number.
pub fn print_fault<W: fmt::Write>(
    f: &mut fmt::Formatter<W>,
    name: &str,
    record: Option<u32>,
) -> fmt::Result {
    f.write_str(name)?;
    match record {
        Some(n) => write!(f, " {n}"),
        None => Ok(()),
    }
}
