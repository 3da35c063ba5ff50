//! The obligations that are open.

ghost use Rattle.std.specs.Prelude.{◌≡◌, ◌<◌, ◌++◌, ◌^◌, List, IfOk, OnOk, length};
ghost use Rattle.std.specs.List.{flat_map};
ghost use Rattle.call_tables.specs.declared.row.Row.{Row as RowOf};
ghost use Rattle.call_tables.specs.{Rows.AreRows};
ghost use Rattle.call_page.specs.{Choices.IsUndecidedOf, Choices.open_row};
ghost use Rattle.call_facts.specs.Lists.{EachOf};

use crate::parts::{Part, part_of_script};
use call_answer::Study;
use call_tables::{Row, is_open};
use draw_page::Undecided;
use model_line::{Memory, name_of_script, name_of_terminal};
use std::alloc::Global;

/// One for each obligation that is open, in order.
pub fn undecided(
    alloc: Global,
    study: &Study,
    parts: &[Part],
    rows: &[Row],
) -> Result<Vec<Undecided>, Memory>
    requires few { length parts.now < 2 ^ 32 }
    requires rows { AreRows study.now.line study.now.scripts.items rows.now }
    ensures { IfOk result (λ those. EachOf
        (IsUndecidedOf study.now.line study.now.scripts.items parts.now)
        (flat_map open_row rows.now) those.items) }
{
    let mut those = Vec::new(alloc);
    for row in rows {
        push_open(alloc, study, parts, row, &mut those)?;
    }
    Ok(those)
}

// Adds that of a row, if it is open.
fn push_open(
    alloc: Global,
    study: &Study,
    parts: &[Part],
    row: &Row,
    those: &mut Vec<Undecided>,
) -> Result<(), Memory>
    requires few { length parts.now < 2 ^ 32 }
    ensures { OnOk result ((before : List RowOf) → EachOf
        (IsUndecidedOf study.now.line study.now.scripts.items parts.now) before those.old.items →
        EachOf (IsUndecidedOf study.now.line study.now.scripts.items parts.now)
        (before ++ open_row row.now) those.new.items) }
{
    if is_open(row) {
        let one = one(alloc, study, parts, row)?;
        those.push(one)?;
    }
    Ok(())
}

fn one(alloc: Global, study: &Study, parts: &[Part], row: &Row) -> Result<Undecided, Memory>
    requires few { length parts.now < 2 ^ 32 }
    ensures { IfOk result
        (IsUndecidedOf study.now.line study.now.scripts.items parts.now row.now) }
{
    let script = Vec::from_slice(alloc, name_of_script(study.scripts.as_slice(), row.script))?;
    let terminal = Vec::from_slice(alloc, name_of_terminal(&study.line, row.terminal))?;
    Ok(Undecided {
        fault: part_of_script(parts, row.script as usize),
        script,
        terminal,
    })
}
