//! What is known of a line and its scripts.

ghost use Rattle.std.specs.Prelude.{◌≡◌, ◌<◌, ◌*◌, Some, length, slice_get};
ghost use Rattle.model_line.specs.Parameters.{terminal_count};
ghost use Rattle.model_line.specs.NamesByNumber.{terminal_name};
ghost use Rattle.call_page.specs.Facts.{AreKnown};
ghost use Rattle.call_facts.specs.FirstTicks.{place as place_in_order};

use call_answer::Study;
use call_facts::Firsts;
use call_tables::Row;
use file_study::sweeps::Group;
use model_line::{Line, Name, Script};

/// A line with its scripts, in groups that stand one after another; the answer to each obligation,
/// and the first ticks of its trip, both script by script and in each its terminals in line order.
#[derive(Clone, Copy)]
pub struct Known<'a> {
    pub study: &'a Study,
    pub groups: &'a [Group],
    pub rows: &'a [Row],
    pub firsts: &'a [Firsts],
}

/// The script of this number.
pub fn script_at(study: &Study, script: u32) -> &Script
    requires { script < length study.now.scripts.items }
    ensures { slice_get study.now.scripts.items script ≡ Some result.now }
{
    &study.scripts[script as usize]
}

/// The name of a terminal.
pub fn name_of(line: &Line, terminal: u32) -> Name
    requires { terminal < terminal_count line.now }
    ensures { result ≡ terminal_name line.now terminal }
{
    line.terminals[terminal as usize].name
}

/// The answer to the obligation of a script at a terminal.
pub fn row_at<'a>(known: &Known<'a>, script: usize, terminal: u32) -> &'a Row
    requires known { AreKnown known.now }
    requires script { script < length known.now.study.now.scripts.items }
    requires terminal { terminal < terminal_count known.now.study.now.line }
    ensures { slice_get known.now.rows.now
        (place_in_order known.now.study.now.line script terminal) ≡ Some result.now }
{
    &known.rows[place(known, script, terminal)]
}

/// The first ticks of its trip.
pub fn firsts_at(known: &Known<'_>, script: usize, terminal: u32) -> Firsts
    requires known { AreKnown known.now }
    requires script { script < length known.now.study.now.scripts.items }
    requires terminal { terminal < terminal_count known.now.study.now.line }
    ensures { slice_get known.now.firsts.now
        (place_in_order known.now.study.now.line script terminal) ≡ Some result }
{
    known.firsts[place(known, script, terminal)]
}

// Where an obligation stands.
fn place(known: &Known<'_>, script: usize, terminal: u32) -> usize
    requires known { AreKnown known.now }
    requires script { script < length known.now.study.now.scripts.items }
    requires terminal { terminal < terminal_count known.now.study.now.line }
    ensures is { result ≡ place_in_order known.now.study.now.line script terminal }
    ensures within { result
        < length known.now.study.now.scripts.items * terminal_count known.now.study.now.line }
{
    script * known.study.line.terminals.len() + terminal as usize
}
