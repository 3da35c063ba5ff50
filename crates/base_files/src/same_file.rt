//! Whether two names are those of one file.

use std::fs;
use std::os::unix::fs::MetadataExt;
use std::rt::Files;

/// Whether both names are those of one plain file, by whatever ways: links are followed, and it is the
/// file of the system that is compared, so hard links are seen too.
pub fn is_same_file<R: Files>(rt: &R, one: &str, other: &str) -> bool {
    match (fs::metadata(rt, one), fs::metadata(rt, other)) {
        (Ok(one), Ok(other)) => {
            one.is_file() && one.dev() == other.dev() && one.ino() == other.ino()
        }
        _ => false,
    }
}
