//! Every obligation, settled.

ghost use Rattle.std.specs.Prelude.{◌≡◌, ◌<◌, ◌*◌, ◌+◌, ◌^◌, List, Some, length};
ghost use Rattle.std.specs.Prelude.{slice_get, IfOk, OnOk};
ghost use Rattle.model_line.specs.Parameters.{terminal_count};
ghost use Rattle.model_line.specs.{declared.line.Line.Line, declared.script.Script.Script};
ghost use Rattle.judge_verdict.specs.verdict.OneEach.{OneEach};
ghost use Rattle.judge_settle.specs.settle.Answers.{AreAnswers};
ghost use Rattle.call_tables.specs.Rows.{AreRows, IsRow};
ghost use Rattle.call_answer.specs.Study.{IsAnyStudy};

use crate::row::Row;
use call_answer::Study;
use judge_settle::settle::{Settled, settle};
use judge_verdict::verdict::analyse;
use model_line::Memory;
use net_gates::Compiled;
use std::alloc::Global;

/// What is known of each obligation: of each script in order, at its terminals in line order, each
/// after at most so many analyses.
pub fn settle_all(alloc: Global, study: &Study, analyses: u32) -> Result<Vec<Row>, Memory>
    requires { IsAnyStudy study.now }
    ensures { IfOk result (λ rows.
        AreRows study.now.line study.now.scripts.items rows.items) }
{
    let mut rows = Vec::new(alloc);
    for i in 0..study.scripts.len() {
        push_script(alloc, study, i, analyses, &mut rows)?;
    }
    Ok(rows)
}

// Adds what is known of script i.
fn push_script(
    alloc: Global,
    study: &Study,
    i: usize,
    analyses: u32,
    rows: &mut Vec<Row>,
) -> Result<(), Memory>
    requires study { IsAnyStudy study.now }
    requires exists { i < length study.now.scripts.items }
    requires before { OneEach (IsRow study.now.line study.now.scripts.items)
        (i * terminal_count study.now.line) rows.old.items }
    ensures { OnOk result (OneEach (IsRow study.now.line study.now.scripts.items)
        (i * terminal_count study.now.line + terminal_count study.now.line) rows.new.items) }
{
    let compiled = Compiled {
        line: &study.line,
        net: &study.net,
    };
    let script = &study.scripts[i];
    let waves = analyse(alloc, &compiled, script)?;
    let settled = settle(alloc, &compiled, script, &waves, analyses)?;
    push_rows(i as u32, settled, rows)
}

// Adds a row for each terminal, with its answer.
fn push_rows(script: u32, settled: Vec<Settled>, rows: &mut Vec<Row>) -> Result<(), Memory>
    requires { length settled.items < 2 ^ 32 }
    ensures { OnOk result ((line : Line) (scripts : List Script) (s : Script) →
        slice_get scripts script ≡ Some s → AreAnswers line s settled.items →
        OneEach (IsRow line scripts) (script * terminal_count line) rows.old.items →
        OneEach (IsRow line scripts) (script * terminal_count line + terminal_count line)
        rows.new.items) }
{
    let mut terminal = 0;
    for one in settled {
        rows.push(Row {
            script,
            terminal,
            settled: one,
        })?;
        terminal += 1;
    }
    Ok(())
}
