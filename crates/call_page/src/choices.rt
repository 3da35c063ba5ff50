//! The choices of delays that fail obligations.

ghost use Rattle.std.specs.Prelude.{◌<◌, ◌++◌, ◌^◌, List, IfOk, OnOk, length};
ghost use Rattle.std.specs.List.{flat_map};
ghost use Rattle.call_tables.specs.declared.row.Row.{Row as RowOf};
ghost use Rattle.call_page.specs.{Choices.IsChoiceOf, Choices.failing_row};
ghost use Rattle.call_facts.specs.Lists.{EachOf};
ghost use Rattle.call_page.specs.Facts.{AreKnown, IsRowOf};

use crate::choice::choice;
use crate::known::Known;
use crate::parts::Part;
use crate::stretch::begins;
use call_tables::Row;
use draw_page::FailingChoice;
use judge_settle::settle::Answer;
use model_line::Memory;
use std::alloc::Global;

/// One for each stretch of scripts that fail at a terminal one after another, of the first of them, in order.
pub fn choices(
    alloc: Global,
    known: &Known<'_>,
    parts: &[Part],
) -> Result<Vec<FailingChoice>, Memory>
    requires known { AreKnown known.now }
    requires few { length parts.now < 2 ^ 32 }
    ensures { IfOk result (λ choices. EachOf
        (IsChoiceOf known.now.study.now.line known.now.study.now.scripts.items parts.now
        known.now.rows.now)
        (flat_map (failing_row known.now.study.now.line parts.now known.now.rows.now)
        known.now.rows.now) choices.items) }
{
    let mut choices = Vec::new(alloc);
    for row in known.rows {
        push_choice(alloc, known, parts, row, &mut choices)?;
    }
    Ok(choices)
}

// Adds that of a row, if it fails and begins a stretch.
fn push_choice(
    alloc: Global,
    known: &Known<'_>,
    parts: &[Part],
    row: &Row,
    choices: &mut Vec<FailingChoice>,
) -> Result<(), Memory>
    requires known { AreKnown known.now }
    requires few { length parts.now < 2 ^ 32 }
    requires row { IsRowOf known.now.study.now.line known.now.study.now.scripts.items row.now }
    ensures { OnOk result ((before : List RowOf) → EachOf
        (IsChoiceOf known.now.study.now.line known.now.study.now.scripts.items parts.now
        known.now.rows.now) before choices.old.items →
        EachOf (IsChoiceOf known.now.study.now.line known.now.study.now.scripts.items parts.now
        known.now.rows.now)
        (before ++ failing_row known.now.study.now.line parts.now known.now.rows.now row.now)
        choices.new.items) }
{
    if let Answer::Fails { timing, .. } = &row.settled.answer {
        if begins(known, parts, row.script as usize, row.terminal) {
            let choice = choice(alloc, known, parts, row, timing)?;
            choices.push(choice)?;
        }
    }
    Ok(())
}
