//! Printing a line as a line file.

ghost use Rattle.std.specs.Prelude.{◌≡◌, ◌≤◌, false, Some, Ok, IfOk};
ghost use Rattle.toml.specs.Text.{IsDocumentText};
ghost use Rattle.file_line.specs.Canonical.{canonical_in, canonical};
ghost use Rattle.file_document.specs.Keys.{document_of};
ghost use Rattle.file_line.specs.{Lines.line_values, LineFiles.line_of};

use crate::canonical;
use model_line::{Line, Memory};
use model_logic::laws::line_laws;
use std::alloc::Global;
use toml::ser::Error;

// The text of the canonical table, which stands for that table.
fn print(alloc: Global, version: u32, unit: u32, line: &Line) -> Result<Vec<u8>, Memory>
    requires { unit ≤ 1000000 }
    ensures text { IfOk result (λ v.
        IsDocumentText false (canonical_in version unit line.now) v.items) }
    ensures table { IfOk result (λ v.
        document_of v.items ≡ Some (canonical_in version unit line.now)) }
{
    let table = canonical::canonical(alloc, version, unit, line)?;
    match toml::table_to_string(alloc, &table) {
        Ok(text) => Ok(text.into_bytes()),
        Err(Error::OutOfMemory) => Err(Memory),
        Err(Error::DateInvalid) => unreachable!(),
    }
}

/// The canonical line file of version 1, with every time as an array of two numbers of ticks.
pub fn print_line(alloc: Global, line: &Line) -> Result<Vec<u8>, Memory>
    ensures text { IfOk result (λ v. IsDocumentText false (canonical 1 line.now) v.items) }
    ensures reads_back { IfOk result (λ v. line_of v.items ≡ Ok (line_values line.now)) }
{
    line_laws();
    print(alloc, 1, 1, line)
}

/// The canonical line file of version 2, with every time as an array of two numbers of
/// microseconds.
pub fn print_line_us(alloc: Global, line: &Line) -> Result<Vec<u8>, Memory>
    ensures text { IfOk result (λ v. IsDocumentText false (canonical 2 line.now) v.items) }
    ensures reads_back { IfOk result (λ v. line_of v.items ≡ Ok (line_values line.now)) }
{
    line_laws();
    print(alloc, 2, line.tick_us, line)
}
