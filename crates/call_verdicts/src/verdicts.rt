//! What the command says.

ghost use Rattle.std.specs.Prelude.{◌≡◌, IfOk};
ghost use Rattle.std.specs.List.{list_any};
ghost use Rattle.call_answer.specs.{Answers.Says, Answers.status_by};
ghost use Rattle.call_verdicts.specs.Cases.{IsCases};
ghost use Rattle.call_verdicts.specs.Verdicts.{is_failing as finding_fails, verdicts_answer};
ghost use Rattle.call_verdicts.specs.Verdicts.{is_open as finding_is_open};

use crate::cases::Cases;
use crate::finding::{Finding, Standing, find_all};
use crate::table::table_text;
use call_answer::{Done, Said};
use model_line::Memory;
use std::alloc::Global;

/// The table of verdicts, a record for each script and terminal, each settled after at most so many
/// analyses: status 1 where one fails, else 2 where one is open, else 0.
pub fn verdicts_table(alloc: Global, cases: &Cases, analyses: u32) -> Result<Said, Memory>
    requires { IsCases cases.now }
    ensures { IfOk result (Says
        (verdicts_answer cases.now.compiled.line.now cases.now.scripts.now cases.now.groups.now)) }
{
    let found = find_all(alloc, cases, analyses)?;
    let text = table_text(alloc, cases, found.as_slice())?;
    Ok(Said {
        status: status_of(found.as_slice()),
        text,
    })
}

/// Status 1 where one fails, else 2 where one is open, else 0.
pub fn status_of(found: &[Finding]) -> Done
    ensures { result
        ≡ status_by (list_any finding_fails found.now) (list_any finding_is_open found.now) }
{
    if some_fails(found) {
        Done::SomeNo
    } else if some_is_open(found) {
        Done::SomeUndecided
    } else {
        Done::Good
    }
}

fn some_fails(found: &[Finding]) -> bool
    ensures { result ≡ list_any finding_fails found.now }
{
    found.iter().any(|one| is_failing(one))
}

fn some_is_open(found: &[Finding]) -> bool
    ensures { result ≡ list_any finding_is_open found.now }
{
    found.iter().any(|one| is_open(one))
}

fn is_failing(one: &Finding) -> bool
    ensures { result ≡ finding_fails one.now }
{
    match one.standing {
        Standing::Fails { .. } => true,
        Standing::Held | Standing::Open => false,
    }
}

fn is_open(one: &Finding) -> bool
    ensures { result ≡ finding_is_open one.now }
{
    match one.standing {
        Standing::Open => true,
        Standing::Held | Standing::Fails { .. } => false,
    }
}
