//! Stretches of scripts that fail at a terminal one after another.

ghost use Rattle.std.specs.Prelude.{◌≡◌, ◌≤◌, ◌<◌, ◌==◌, length};
ghost use Rattle.model_line.specs.Parameters.{terminal_count};
ghost use Rattle.call_tables.specs.Table.{is_failing as row_fails};
ghost use Rattle.call_page.specs.Choices.{IsStretch, begins as begins_at, fails_at as fails_there};
ghost use Rattle.call_page.specs.Choices.{goes_on as goes_on_at, is_first as is_first_of};
ghost use Rattle.call_page.specs.Facts.{AreKnown};

use crate::known::{Known, row_at};
use crate::parts::Part;
use call_tables::Row;
use judge_settle::settle::Answer;

/// How many scripts of its fault fail at a terminal from this one on, one after another.
pub fn stretch(known: &Known<'_>, parts: &[Part], script: u32, terminal: u32) -> u32
    requires known { AreKnown known.now }
    requires script { script < length known.now.study.now.scripts.items }
    requires terminal { terminal < terminal_count known.now.study.now.line }
    ensures { IsStretch known.now.study.now.line (length known.now.study.now.scripts.items) parts.now
        known.now.rows.now script terminal result }
{
    let left = known.study.scripts.len() as u32 - script;
    for count in 1..left {
        if !goes_on(known, parts, script as usize + count as usize, terminal) {
            return count;
        }
    }
    left
}

/// Whether no script of its fault stands before this one that fails at the terminal too.
pub fn begins(known: &Known<'_>, parts: &[Part], script: usize, terminal: u32) -> bool
    requires known { AreKnown known.now }
    requires script { script < length known.now.study.now.scripts.items }
    requires terminal { terminal < terminal_count known.now.study.now.line }
    ensures { result
        ≡ begins_at known.now.study.now.line parts.now known.now.rows.now script terminal }
{
    is_first(parts, script) || !fails_at(known, script.saturating_sub(1), terminal)
}

// Whether a script is of the fault of the one before, and fails.
fn goes_on(known: &Known<'_>, parts: &[Part], script: usize, terminal: u32) -> bool
    requires known { AreKnown known.now }
    requires script { script < length known.now.study.now.scripts.items }
    requires terminal { terminal < terminal_count known.now.study.now.line }
    ensures { result
        ≡ goes_on_at known.now.study.now.line parts.now known.now.rows.now script terminal }
{
    !is_first(parts, script) && fails_at(known, script, terminal)
}

fn fails_at(known: &Known<'_>, script: usize, terminal: u32) -> bool
    requires known { AreKnown known.now }
    requires script { script < length known.now.study.now.scripts.items }
    requires terminal { terminal < terminal_count known.now.study.now.line }
    ensures { result ≡ fails_there known.now.study.now.line known.now.rows.now script terminal }
{
    fails(row_at(known, script, terminal))
}

/// Whether the obligation of a row fails.
pub fn fails(row: &Row) -> bool
    ensures { result ≡ row_fails row.now }
{
    matches!(row.settled.answer, Answer::Fails { .. })
}

// Whether a fault begins with this script.
fn is_first(parts: &[Part], script: usize) -> bool
    ensures { result ≡ is_first_of parts.now script }
{
    parts.iter().any(|part| starts(*part, script))
}

fn starts(part: Part, script: usize) -> bool
    ensures { result ≡ (part.start == script) }
{
    part.start == script
}
