//! The lines of a timing at which an obligation fails, read one after another.

ghost use Rattle.std.specs.Prelude.{◌≡◌, ◌≢◌, ◌+◌, ◌∷◌, ◌++◌, [], ℕ, List, MatchOption};
ghost use Rattle.std.specs.Prelude.{MatchResult, map};
ghost use Rattle.model_logic.specs.Choice.{Box};
ghost use Rattle.model_timing.specs.{declared.step.Step.Step, Inside.IsStepInside};
ghost use Rattle.base_text.specs.{lines.Lines.BeginsWith, lines.Grammar.IsFault};
ghost use Rattle.cert_settle.specs.Grammar.{Place, Follows, step_text, grammar_of, result_over};
ghost use Rattle.cert_settle.specs.Grammar.{result_said, IsSettleResult};
ghost use Rattle.cert_settle.specs.Reading.{GoesOn, IsNoNode, last_of, result_in};

use crate::claim::TreeClaim;
use crate::known::laws_below;
use crate::step_line::{follows, step_in};
use base_memory::Stopped;
use base_text::lines::{LineCursor, TextFault};
use cert_claims::text::read_no;
use model_line::Line;
use model_timing::Step;
use run_signal::Tick;
use std::alloc::Global;

// The step of this line, where it may follow the last of these.
fn next_step(line: &Line, steps: &[Step<Tick>], bytes: &[u8]) -> Option<Step<Tick>>
    ensures { MatchOption result
        ((step : Step ℕ) → IsStepInside line.now step → Follows (last_of steps.now) step →
        bytes.now ≢ step_text line.now step)
        (λ step. IsStepInside line.now step
        × (Follows (last_of steps.now) step × (bytes.now ≡ step_text line.now step))) }
{
    laws_below();
    let step = step_in(line, bytes)?;
    if follows(steps, &step) {
        Some(step)
    } else {
        None
    }
}

/// Reads the lines of a timing, of which the first, with this number, was taken. It is no node's.
pub(crate) fn read_timing(
    alloc: Global,
    line: &Line,
    first: &[u8],
    number: usize,
    lines: &mut LineCursor<'_>,
) -> Result<TreeClaim, Stopped<TextFault>>
    requires { lines.old.number ≡ number + 1 }
    ensures { (box : Box) (later : List Place) (text : List ℕ) →
        BeginsWith text first.now lines.old.rest.now → IsNoNode line.now box first.now →
        MatchResult result
        (λ claim. IsSettleResult line.now (result_in claim)
        × GoesOn line.now (result_over box ∷ later) (result_said (result_in claim))
        text number later lines.new.rest.now lines.new.number)
        (λ why. IsFault (grammar_of line.now) (result_over box ∷ later) text number why) }
{
    let mut steps = Vec::new(alloc);
    let mut bytes = first;
    let mut at = number;
    'steps: while let Some(step) = next_step(line, steps.as_slice(), bytes) {
        steps.push(step)?;
        at = lines.number;
        bytes = lines.take_line()?;
    }
    match read_no(alloc, line, bytes)? {
        Some(numbers) => Ok(TreeClaim::Fails { steps, numbers }),
        None => Err(Stopped::Fault(TextFault { line: at })),
    }
}
