//! The names of a record's files.

ghost use Rattle.std.specs.Prelude.{◌≡◌, ◌≤◌, IfOk, length};
ghost use Rattle.std.specs.Bool.{OnTrue};
ghost use Rattle.file_records.specs.map.DataNames.{data_name, ends_in, is_config, is_one_file};

use crate::map::recorder::Recorder;
use std::alloc::{AllocError, Global};

// Whether the name ends in a point and these three letters, of either case.
fn ends_in(a: u8, b: u8, c: u8, name: &[u8]) -> bool
    ensures value { result ≡ ends_in a b c name.now }
    ensures long { OnTrue result (4 ≤ length name.now) }
{
    let n = name.len();
    if n >= 4 {
        name[n - 4] == b'.'
            && name[n - 3].to_ascii_lowercase() == a
            && name[n - 2].to_ascii_lowercase() == b
            && name[n - 1].to_ascii_lowercase() == c
    } else {
        false
    }
}

/// Whether the name is that of a configuration: it ends in `.cfg`, in letters of either case.
pub fn is_config(name: &[u8]) -> bool
    ensures value { result ≡ is_config name.now }
    ensures long { OnTrue result (4 ≤ length name.now) }
{
    ends_in(b'c', b'f', b'g', name)
}

/// Whether the name is that of a record in one file: it ends in `.cff`.
pub fn is_one_file(name: &[u8]) -> bool
    ensures value { result ≡ is_one_file name.now }
    ensures long { OnTrue result (4 ≤ length name.now) }
{
    ends_in(b'c', b'f', b'f', name)
}

/// The name of the data that lie beside a recorder's configuration: `dat` in place of `cfg`, in the
/// case of its last letter.
pub fn data_name(alloc: Global, recorder: &Recorder) -> Result<Vec<u8>, AllocError>
    ensures { IfOk result (λ v. v.items ≡ data_name recorder.now.config.items) }
{
    let config = recorder.config.as_slice();
    let mut name = Vec::from_slice(alloc, &config[..config.len() - 3])?;
    if config[config.len() - 1] == b'G' {
        name.extend_from_slice(b"DAT")?;
    } else {
        name.extend_from_slice(b"dat")?;
    }
    Ok(name)
}
