//! The slack of each end, script by script.

ghost use Rattle.std.specs.Prelude.{◌≡◌, ◌≤◌, ◌<◌, ◌*◌, ℕ, IfOk, IsTrue, Some, length, slice_get};
ghost use Rattle.std.specs.List.{All, slice_range};
ghost use Rattle.model_line.specs.{Parameters.param_count, Fits.Fits};
ghost use Rattle.model_logic.specs.Choice.{declared_box};
ghost use Rattle.judge_report.specs.declared.upper_end.Lost.{Lost as LostOf};
ghost use Rattle.judge_margins.specs.margins.Ends.{AreEnds, AreLimits, HaveRoom, limit_of};
ghost use Rattle.judge_margins.specs.margins.Brackets.{AreBrackets, AreBracketsOf, AreNarrowed, left_of};
ghost use Rattle.judge_margins.specs.margins.Groups.{AreOfOneScript, IsGroup};
ghost use Rattle.judge_margins.specs.{margins.Kept.AreKept, margins.Kept.AreObligations};

use crate::margins::bracket::Bracket;
use crate::margins::end::End;
use crate::margins::group::Group;
use crate::margins::known::laws_below;
use crate::margins::lists::{asked, halves, opened, settle, widest};
use crate::margins::probe::probe;
use crate::margins::widened::{param_at, room, side_at};
use judge_report::Lost;
use model_line::{Line, Memory, Script};
use net_gates::Compiled;
use std::alloc::Global;

/// Both ends of each parameter, in order: how far each can be moved outward, all else as declared,
/// so that these obligations are held, which are held over the declared intervals; and the first of
/// them that is lost one tick further.
pub fn margins(
    alloc: Global,
    compiled: &Compiled<'_>,
    scripts: &[Script],
    obligations: &[Lost],
) -> Result<Vec<End>, Memory>
    requires fit { All (Fits compiled.now.line.now) scripts.now }
    requires exist { AreObligations compiled.now.line.now scripts.now obligations.now }
    requires held { AreKept compiled.now.line.now scripts.now (declared_box compiled.now.line.now)
        obligations.now
        (length obligations.now) }
    ensures ends { IfOk result (λ ends.
        AreEnds compiled.now.line.now scripts.now obligations.now (length obligations.now)
        ends.items) }
    ensures room { IfOk result (λ ends. HaveRoom compiled.now.line.now ends.items) }
{
    laws_below();
    let mut ends = limits(alloc, compiled.line)?;
    let mut first = 0;
    'next_script: while first < obligations.len() {
        let next = next_script(obligations, first);
        let of = Group {
            compiled: *compiled,
            scripts,
            script: obligation_at(obligations, first).script,
            these: between(obligations, first, next),
        };
        ends = narrowed(alloc, &of, &ends)?;
        first = next;
    }
    Ok(ends)
}

// Where the obligations of the script at this place end.
fn next_script(obligations: &[Lost], first: usize) -> usize
    requires { first < length obligations.now }
    ensures later { first < result }
    ensures within { result ≤ length obligations.now }
    ensures same { AreOfOneScript obligations.now first result }
{
    let mut next = first + 1;
    'same_script: while next < obligations.len() && is_of_script(obligations, first, next) {
        next += 1;
    }
    next
}

// Whether two obligations are of one script.
fn is_of_script(obligations: &[Lost], first: usize, next: usize) -> bool
    requires first { first < length obligations.now }
    requires next { next < length obligations.now }
    ensures { IsTrue result → (o p : LostOf) → slice_get obligations.now first ≡ Some p →
        slice_get obligations.now next ≡ Some o → o.script ≡ p.script }
{
    obligations[next].script == obligations[first].script
}

// The obligations from one place up to another.
fn between(obligations: &[Lost], first: usize, next: usize) -> &[Lost]
    requires ordered { first ≤ next }
    requires within { next ≤ length obligations.now }
    ensures { result.now ≡ slice_range obligations.now first next }
{
    &obligations[first..next]
}

fn obligation_at(obligations: &[Lost], place: usize) -> Lost
    requires { place < length obligations.now }
    ensures { slice_get obligations.now place ≡ Some result }
{
    obligations[place]
}

// Each end at its limit.
fn limits(alloc: Global, line: &Line) -> Result<Vec<End>, Memory>
    ensures { IfOk result (λ ends. AreLimits line.now ends.items) }
{
    laws_below();
    let mut ends = Vec::new(alloc);
    for place in 0..2 * line.param_count() as usize {
        ends.push(limit_at(line, place))?;
    }
    Ok(ends)
}

fn limit_at(line: &Line, place: usize) -> End
    requires { place < 2 * param_count line.now }
    ensures { result ≡ limit_of line.now place }
{
    laws_below();
    End {
        slack: room(line, param_at(place), side_at(place)),
        lost: None,
    }
}

// The ends over the obligations of one more script.
fn narrowed(alloc: Global, of: &Group, ends: &[End]) -> Result<Vec<End>, Memory>
    requires group { IsGroup of.now }
    requires room { HaveRoom of.now.compiled.line.now ends.now }
    ensures { IfOk result (λ more. AreNarrowed of.now ends.now more.items) }
{
    let brackets = closed_brackets(alloc, of, ends)?;
    settle(alloc, ends, &brackets)
}

// How far each end can be moved so that the obligations are held, no further than its slack.
fn closed_brackets(alloc: Global, of: &Group, ends: &[End]) -> Result<Vec<Bracket>, Memory>
    requires group { IsGroup of.now }
    requires room { HaveRoom of.now.compiled.line.now ends.now }
    ensures { IfOk result (λ brackets. AreBrackets of.now ends.now 0 brackets.items) }
{
    laws_below();
    let mut brackets = opened(alloc, ends)?;
    brackets = narrower(alloc, of, ends, &brackets, true)?;
    let mut width = widest(&brackets);
    'halving: while width > 0 {
        brackets = narrower(alloc, of, ends, &brackets, false)?;
        width /= 2;
    }
    Ok(brackets)
}

// By what is lost first with each end moved to the next number of its bracket.
fn narrower(
    alloc: Global,
    of: &Group,
    ends: &[End],
    brackets: &[Bracket],
    whole: bool,
) -> Result<Vec<Bracket>, Memory>
    requires group { IsGroup of.now }
    requires room { HaveRoom of.now.compiled.line.now ends.now }
    requires brackets { AreBracketsOf of.now ends.now brackets.now }
    ensures { IfOk result (λ halves. (width : ℕ) →
        AreBrackets of.now ends.now width brackets.now →
        AreBrackets of.now ends.now (left_of whole width) halves.items) }
{
    laws_below();
    let slots = asked(alloc, brackets, whole)?;
    let told = probe(alloc, of, &slots.asks)?;
    halves(alloc, brackets, &slots.slots, &told, whole)
}
