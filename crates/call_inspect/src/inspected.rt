//! What is found in all files.

ghost use Rattle.std.specs.Prelude.{◌≡◌, IfOk, nat_lt, if◌then◌else◌};
ghost use Rattle.call_inspect.specs.Grounds.{IsGround};
ghost use Rattle.call_inspect.specs.Inspected.{IsInspected, done_by, worse as worse_of};

use crate::found::found_in;
use crate::given::GivenFile;
use crate::ground::{Ground, ground_of};
use base_memory::Memory;
use call_answer::{Done, Said};
use call_lint::lint::Outcome;
use std::alloc::Global;

/// What is found in the files: the status of the worst, and the text of each, in their order.
pub fn inspected(alloc: Global, files: &[GivenFile<'_>]) -> Result<Said, Memory>
    ensures { IfOk result (λ said. IsInspected files.now said.status said.text.items) }
{
    let ground = ground_of(alloc, files)?;
    inspected_against(alloc, &ground, files)
}

fn inspected_against(
    alloc: Global,
    ground: &Ground<'_, '_>,
    files: &[GivenFile<'_>],
) -> Result<Said, Memory>
    requires { IsGround files.now ground.now }
    ensures { IfOk result (λ said. IsInspected files.now said.status said.text.items) }
{
    let mut worst = Outcome::Clean;
    let mut text = Vec::new(alloc);
    for file in files {
        let linted = found_in(alloc, ground, file)?;
        worst = worse(worst, linted.outcome);
        text.extend_from_slice(linted.text.as_slice())?;
    }
    Ok(Said {
        status: done_of(worst),
        text,
    })
}

// The outcome with the greater status.
fn worse(a: Outcome, b: Outcome) -> Outcome
    ensures { result ≡ worse_of a b }
{
    if a.status() < b.status() { b } else { a }
}

fn done_of(outcome: Outcome) -> Done
    ensures { result ≡ done_by outcome }
{
    match outcome {
        Outcome::Clean => Done::Good,
        Outcome::Suspicious => Done::SomeUndecided,
        Outcome::Refused => Done::Rejected,
    }
}
