//! The files that were read.

ghost use Rattle.std.specs.Prelude.{IfOk, map};
ghost use Rattle.call_facts.specs.Lists.{EachOf};
ghost use Rattle.call_page.specs.Sources.{IsSourceFile, source_file};

use crate::said::Source;
use call_facts::hash_of;
use draw_page::FileText;
use model_line::Memory;
use std::alloc::Global;

/// The files with their digests, in order.
pub fn sources(alloc: Global, sources: &[Source<'_>]) -> Result<Vec<FileText>, Memory>
    ensures { IfOk result (λ files. EachOf IsSourceFile (map source_file sources.now) files.items) }
{
    let mut files = Vec::new(alloc);
    for source in sources {
        let file = source_text(alloc, source)?;
        files.push(file)?;
    }
    Ok(files)
}

fn source_text(alloc: Global, source: &Source<'_>) -> Result<FileText, Memory>
    ensures { IfOk result (IsSourceFile (source_file source.now)) }
{
    let name = Vec::from_slice(alloc, source.name)?;
    let text = Vec::from_slice(alloc, source.bytes)?;
    let sha256 = hash_of(alloc, source.bytes)?;
    Ok(FileText { name, text, sha256 })
}
