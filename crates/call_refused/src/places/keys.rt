//! Where the key of a TOML document stands.

ghost use Rattle.std.specs.Prelude.{◌≤◌, IfOk, IfSome, length};

use crate::places::scan::Scan;
use base_memory::Memory;
use std::alloc::Global;

/// Where the key or the item of this path, as `terminal[0].z2.pickup` or `fault[1].A[0]`, stands in a
/// TOML document, within inline tables and arrays too; where it does not, the innermost table of
/// the path that does, or else the beginning.
pub fn place_of_key(alloc: Global, bytes: &[u8], path: &[u8]) -> Result<usize, Memory>
    ensures { IfOk result (λ place. place ≤ length bytes.now) }
{
    let scan = scanned(alloc, bytes, path)?;
    Ok(scan.place().min(bytes.len()))
}

/// Where a table or key of exactly this path stands.
pub fn place_of_table(alloc: Global, bytes: &[u8], path: &[u8]) -> Result<Option<usize>, Memory>
    ensures { IfOk result (λ found. IfSome found (λ place. place ≤ length bytes.now)) }
{
    let scan = scanned(alloc, bytes, path)?;
    if scan.depth() == path.len() {
        Ok(Some(scan.place().min(bytes.len())))
    } else {
        Ok(None)
    }
}

// The whole document, in which the path is looked for.
fn scanned(alloc: Global, bytes: &[u8], path: &[u8]) -> Result<Scan, Memory> {
    let mut scan = Scan::new(alloc);
    for at in 0..bytes.len() {
        scan.read(alloc, path, bytes, at)?;
    }
    Ok(scan)
}

/// What closes the arrays and the inline tables that these bytes leave open, on a line of its own.
pub fn closing_of(alloc: Global, bytes: &[u8]) -> Result<Vec<u8>, Memory> {
    scanned(alloc, bytes, b"")?.closing(alloc)
}
