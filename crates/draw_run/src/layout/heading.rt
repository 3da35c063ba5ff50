//! The heading of a drawing.

ghost use Rattle.std.specs.Prelude.{◌≡◌, ◌++◌, IfOk};
ghost use Rattle.draw_run.specs.layout.Drawings.{heading, kind_said, subject_said};
ghost use Rattle.draw_run.specs.layout.Words.{said};

use crate::layout::subject::Subject;
use crate::layout::words::Words;
use model_line::{Kind, Line, Memory, Script, scheme_word};
use std::alloc::Global;

/// `POTT, internal fault F1: every choice of delays`.
pub fn heading_words(
    alloc: Global,
    line: &Line,
    script: &Script,
    subject: Subject,
) -> Result<Words, Memory>
    ensures { IfOk result (λ words. said words ≡ heading line.now script.now subject) }
{
    let words = Words::new(alloc)
        .word(scheme_word(line.scheme))?
        .word(kind_name(script.kind))?
        .word(script.name.bytes())?;
    subject_words(words, subject)
}

// And what is drawn of them.
fn subject_words(words: Words, subject: Subject) -> Result<Words, Memory>
    ensures { IfOk result (λ more. said more ≡ said words ++ subject_said subject) }
{
    match subject {
        Subject::Play(timing) => words.word(b": timing ")?.word(timing.bytes()),
        Subject::EveryChoice => words.word(b": every choice of delays"),
    }
}

fn kind_name(kind: Kind) -> &'static [u8]
    ensures { result.now ≡ kind_said kind }
{
    match kind {
        Kind::Internal => b", internal fault ",
        Kind::External => b", external fault ",
    }
}
