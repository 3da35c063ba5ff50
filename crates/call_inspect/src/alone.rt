//! Of files that nothing is held against, or that are of no kind.

ghost use Rattle.std.specs.Prelude.{◌≡◌, IfOk};
ghost use Rattle.call_lint.specs.lint.Outcomes.{IsSaid};
ghost use Rattle.call_lint.specs.declared.lint.linted.Outcome.TheVariants as outcome;

use base_memory::Memory;
use call_lint::lint::Linted;
use call_refused::told::told;
use call_refused::words::mistake::{Mistake, Wanted, mistake_of};
use std::alloc::Global;

const NO_LINE: &str =
    "warning: its head alone is looked at, for want of a line to hold it against; name one line file or one study beside it";

const NO_SCRIPTS: &str =
    "warning: its head alone is looked at, for want of scripts to hold it against; name one study, or a line and one file of its scripts, at most 64 of them, beside it";

const NO_KIND: &str =
    "no head tells what this file is; write study = 1 in a study, version = 1 in a line file, [[recorder]] in a map of records, script,item,place,from,to over scripts, timing,parameter,value over timings and script,tick,terminal,signal,level over a record, or end the name of a relay's record in .cfg or .cff";

/// A file that a line is needed for, and no line is the only one.
pub fn without_line(alloc: Global, name: &str, bytes: &[u8]) -> Result<Linted, Memory>
    ensures { IfOk result (λ linted. linted.outcome ≡ outcome.Suspicious) }
{
    Ok(Linted::suspicious(told(alloc, name, bytes, 0, NO_LINE, &[])?))
}

/// A file that scripts are needed for, of which there are none that are known, or too many.
pub fn without_scripts(alloc: Global, name: &str, bytes: &[u8]) -> Result<Linted, Memory>
    ensures { IfOk result (λ linted. linted.outcome ≡ outcome.Suspicious) }
{
    Ok(Linted::suspicious(told(alloc, name, bytes, 0, NO_SCRIPTS, &[])?))
}

/// A file of no kind.
pub fn without_kind(alloc: Global, name: &str, bytes: &[u8]) -> Result<Linted, Memory>
    ensures found { IfOk result (λ linted. linted.outcome ≡ outcome.Refused) }
    ensures said { IfOk result (λ linted.
        IsSaid name.now bytes.now linted.outcome linted.text.items) }
{
    let more = encoding(bytes);
    Ok(Linted::refused(told(alloc, name, bytes, 0, NO_KIND, &[more.as_bytes()])?))
}

// What is said of a text that is UTF-16, as some editors save it.
fn encoding(bytes: &[u8]) -> &'static str {
    match mistake_of(Wanted::Document, bytes) {
        Some(Mistake::Utf16) => "; the file is UTF-16: save it as UTF-8",
        _ => "",
    }
}
