//! What the command says.

ghost use Rattle.std.specs.Prelude.{◌≡◌, IfOk};
ghost use Rattle.std.specs.List.{list_any};
ghost use Rattle.call_answer.specs.{Answers.Says, Answers.status_by};
ghost use Rattle.call_tables.specs.Table.{fails_for_every as fails_for_every_of};
ghost use Rattle.call_tables.specs.Table.{is_failing as row_fails, is_open as row_is_open};
ghost use Rattle.call_tables.specs.{Rows.AreRows, Settled.settle_answer, Settled.IsTableOf};
ghost use Rattle.call_answer.specs.Study.{IsAnyStudy};

use crate::row::Row;
use crate::rows::settle_all;
use crate::table::table_text;
use call_answer::{Done, Said, Study};
use judge_settle::settle::Answer;
use model_line::Memory;
use std::alloc::Global;

/// The table of all obligations, each settled with at most so many analyses: status 1 where one
/// fails, else 2 where one is open, else 0.
pub fn settle_table(alloc: Global, study: &Study, analyses: u32) -> Result<Said, Memory>
    requires { IsAnyStudy study.now }
    ensures { IfOk result
        (Says (settle_answer study.now.line study.now.scripts.items)) }
{
    let rows = settle_all(alloc, study, analyses)?;
    table_of(alloc, study, rows.as_slice())
}

/// The table of these rows, one for each obligation: status 1 where one fails, else 2 where one is
/// open, else 0.
pub fn table_of(alloc: Global, study: &Study, rows: &[Row]) -> Result<Said, Memory>
    requires { AreRows study.now.line study.now.scripts.items rows.now }
    ensures { IfOk result (λ said. IsTableOf study.now.line study.now.scripts.items rows.now
        said.status said.text.items) }
{
    let text = table_text(alloc, study, rows)?;
    Ok(Said {
        status: status_of(rows),
        text,
    })
}

/// The status of these rows: 1 where one fails, else 2 where one is open, else 0.
pub fn status_of(rows: &[Row]) -> Done
    ensures { result ≡ status_by (list_any row_fails rows.now) (list_any row_is_open rows.now) }
{
    if some_fails(rows) {
        Done::SomeNo
    } else if some_is_open(rows) {
        Done::SomeUndecided
    } else {
        Done::Good
    }
}

fn some_fails(rows: &[Row]) -> bool
    ensures { result ≡ list_any row_fails rows.now }
{
    rows.iter().any(|row| is_failing(row))
}

fn some_is_open(rows: &[Row]) -> bool
    ensures { result ≡ list_any row_is_open rows.now }
{
    rows.iter().any(|row| is_open(row))
}

fn is_failing(row: &Row) -> bool
    ensures { result ≡ row_fails row.now }
{
    match row.settled.answer {
        Answer::Fails { .. } => true,
        Answer::Held(_) | Answer::Open(_) => false,
    }
}

/// Whether an obligation is open.
pub fn is_open(row: &Row) -> bool
    ensures { result ≡ row_is_open row.now }
{
    match row.settled.answer {
        Answer::Open(_) => true,
        Answer::Held(_) | Answer::Fails { .. } => false,
    }
}

/// Whether an obligation fails for every choice.
pub fn fails_for_every(row: &Row) -> bool
    ensures { result ≡ fails_for_every_of row.now.settled.answer }
{
    match row.settled.answer {
        Answer::Fails { every, .. } => every,
        Answer::Held(_) | Answer::Open(_) => false,
    }
}
