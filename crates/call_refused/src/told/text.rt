//! Of a text whose line is known, and of a file that is too long.

ghost use Rattle.std.specs.Prelude.{◌≤◌, IfOk, length};
ghost use Rattle.call_refused.specs.told.Told.{IsToldAt};

use crate::places::place_of_line;
use crate::told::one_line::told;
use base_memory::Memory;
use itoa::Buffer;
use std::alloc::Global;

/// The line of a text that is checked, as a certificate or settled trees, whose line of this number
/// leaves the grammar.
pub fn refused_text(
    alloc: Global,
    name: &str,
    bytes: &[u8],
    fault: &usize,
) -> Result<Vec<u8>, Memory>
    ensures { IfOk result (λ text. IsToldAt name.now bytes.now text.items) }
{
    let at = place_of_line(bytes, *fault);
    told(
        alloc,
        name,
        bytes,
        at,
        "this line is none that may stand here; write the text as the program wrote it, of the same line and scripts",
        &[],
    )
}

/// The line of a file that has more bytes than it may have.
pub fn too_long(alloc: Global, name: &str, bytes: &[u8], fault: &usize) -> Result<Vec<u8>, Memory>
    ensures { IfOk result (λ text. IsToldAt name.now bytes.now text.items) }
{
    let mut digits = Buffer::new();
    let more: [&[u8]; 2] = [
        digits.format(*fault).as_bytes(),
        b" bytes; write a shorter one, or part it in two",
    ];
    let at = bytes.len().min(*fault);
    told(alloc, name, bytes, at, "the file has more than ", &more)
}
