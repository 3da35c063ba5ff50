//! The name of a file that another file names.

ghost use Rattle.std.specs.Prelude.{◌≡◌, IfOk};
ghost use Rattle.call_records.specs.Beside.{beside as name_beside, folder_of, is_whole};

use std::alloc::{AllocError, Global};

// The folder in which a file of that name lies, with its last slash.
fn folder_of(name: &[u8]) -> &[u8]
    ensures { result.now ≡ folder_of name.now }
{
    let mut n = name.len();
    while n > 0 {
        if name[n - 1] == b'/' {
            return &name[..n];
        }
        n -= 1;
    }
    &name[..0]
}

fn is_whole(name: &[u8]) -> bool
    ensures { result ≡ is_whole name.now }
{
    match name.first() {
        Some(byte) => *byte == b'/',
        None => false,
    }
}

/// A name in the folder of another file, or as it stands where it begins with a slash.
pub fn beside(alloc: Global, other: &[u8], name: &[u8]) -> Result<Vec<u8>, AllocError>
    ensures { IfOk result (λ v. v.items ≡ name_beside other.now name.now) }
{
    if is_whole(name) {
        return Vec::from_slice(alloc, name);
    }
    let mut all = Vec::from_slice(alloc, folder_of(other))?;
    all.extend_from_slice(name)?;
    Ok(all)
}
