//! The line file of a study.

ghost use Rattle.std.specs.Prelude.{IfOk, IfErr};
ghost use Rattle.base_memory.specs.Gives.{Fails};
ghost use Rattle.file_study.specs.study.Studies.{study_of, HasLine};

use crate::study::read::read_study;
use base_memory::Stopped;
use file_document::DocumentFault;
use file_line::print_line;
use std::alloc::Global;

/// The line file of a study, of version 1: it is read back as the study's line.
pub fn line_text(alloc: Global, bytes: &[u8]) -> Result<Vec<u8>, Stopped<DocumentFault>>
    ensures reads_back { IfOk result (λ v. HasLine (study_of bytes.now) v.items) }
    ensures refused { IfErr result (λ why. Fails why (study_of bytes.now)) }
{
    let study = read_study(alloc, bytes)?;
    let text = print_line(alloc, &study.line)?;
    Ok(text)
}
