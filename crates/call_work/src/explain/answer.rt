//! The text and the status of an answer.

ghost use Rattle.std.specs.Prelude.{◌≡◌, [], IfOk};
ghost use Rattle.model_timing.specs.{Timing.TimingValues, Inside.IsTimingInside};
ghost use Rattle.judge_match.specs.declared.explain.paired.Paired.{Paired};
ghost use Rattle.judge_match.specs.declared.explain.answer.Explanation.TheVariants.{Explained};
ghost use Rattle.call_work.specs.explain.Table.{answer_status, answer_text, none_said};
ghost use Rattle.call_work.specs.explain.Table.{timing_text as text_of_timing};

use crate::explain::fields::changes_text;
use call_answer::{Done, Said, text_of};
use call_ask::ExplainForm;
use file_tables::timing::print_timings;
use itoa::Buffer;
use judge_match::explain::Explanation;
use model_line::{Line, Memory, Name};
use model_timing::{NamedTiming, Timing};
use std::alloc::Global;

/// What is said of an answer.
pub fn said_of(
    alloc: Global,
    line: &Line,
    form: ExplainForm,
    explanation: Explanation,
) -> Result<Said, Memory>
    requires { (timing : TimingValues) (rows : _) → explanation ≡ Explained timing rows →
        IsTimingInside line.now timing × (timing.steps ≡ []) }
    ensures status { IfOk result (λ said. said.status ≡ answer_status explanation) }
    ensures text { IfOk result (λ said. said.text.items ≡ answer_text line.now form explanation) }
{
    let status = status_of(&explanation);
    let text = text_in(alloc, line, form, explanation)?;
    Ok(Said { status, text })
}

fn status_of(explanation: &Explanation) -> Done
    ensures { result ≡ answer_status explanation.now }
{
    match explanation {
        Explanation::Explained { .. } => Done::Good,
        Explanation::Impossible { .. } => Done::SomeNo,
        Explanation::Open => Done::SomeUndecided,
    }
}

// The text of an answer in the form that is asked for.
fn text_in(
    alloc: Global,
    line: &Line,
    form: ExplainForm,
    explanation: Explanation,
) -> Result<Vec<u8>, Memory>
    requires { (timing : TimingValues) (rows : _) → explanation ≡ Explained timing rows →
        IsTimingInside line.now timing × (timing.steps ≡ []) }
    ensures { IfOk result (λ text. text.items ≡ answer_text line.now form explanation) }
{
    match explanation {
        Explanation::Explained { timing, rows } => match form {
            ExplainForm::Changes => changes_text(alloc, line, &rows),
            ExplainForm::Timings => timing_text(alloc, line, timing),
        },
        Explanation::Impossible { parts, .. } => none_text(alloc, parts),
        Explanation::Open => text_of(alloc, &[b"open\n"]),
    }
}

// The timing as a timings file.
fn timing_text(alloc: Global, line: &Line, timing: Timing) -> Result<Vec<u8>, Memory>
    requires inside { IsTimingInside line.now timing }
    requires steady { timing.steps ≡ [] }
    ensures { IfOk result (λ text. text.items ≡ text_of_timing line.now timing) }
{
    let name = Name::plain(b"explained");
    let mut timings = Vec::new(alloc);
    timings.push(NamedTiming { name, timing })?;
    print_timings(alloc, line, timings.as_slice())
}

// The line that tells that there is none.
fn none_text(alloc: Global, parts: usize) -> Result<Vec<u8>, Memory>
    ensures { IfOk result (λ text. text.items ≡ none_said parts) }
{
    let mut digits = Buffer::new();
    let parts = digits.format(parts).as_bytes();
    text_of(alloc, &[b"no timing, in ", parts, b" parts\n"])
}
