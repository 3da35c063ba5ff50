//! The call.

ghost use Rattle.std.specs.Prelude.{[], ◌≡◌, ◌≤◌, IsTrue, length};
ghost use Rattle.model_line.specs.{Fits.deadline_fits, PlainNames.is_plain_name};
ghost use Rattle.file_records.specs.map.Maps.{map_of, map_values};
ghost use Rattle.call_answer.specs.Sinks.{sink_view};
ghost use Rattle.call_records.specs.{Clauses.Clauses, Ends.EndsOf, Request.asked_values, Request.request_of};
ghost use Rattle.call_records.specs.Course.{after_map, course_of, over, recorders_course, untold_by, with_line};
ghost use Rattle.call_records.specs.{Files.Runs, Read.text_seen};
ghost use Rattle.call_records.specs.Halts.{IsDone, IsEarly};

use crate::answer::answer;
use crate::asked::Asked;
use crate::fetch::{SMALL, fetch_file, fetch_recorders};
use crate::halt::{File, Halt, put_halt};
use crate::read::{read_line, read_map};
use crate::refusal::untold_halt;
use base_files::Reasoned;
use base_text::store::{Sink, Store, put_all};
use call_ask::{RecordsAsk, RecordsWork};
use file_records::map::{Map, Signal};
use file_records::tracks::first_untold;
use model_line::Line;
use std::alloc::Global;

/// Makes of records what is asked for, over the store, with its text on `out` and, where there is
/// none, one line on `err`: of a file that is refused its name, the line and the column; of one that
/// is not read its name and the store's reason. Of `out`, which has no name here, nothing is said on
/// `err`.
///
/// The line file is read first, then the map, and then each recorder's configuration and data, in
/// the order of the map; their names are taken from the folder of the map.
pub fn records<S: Reasoned, O: Sink, E: Sink>(
    alloc: Global,
    ask: &RecordsAsk<'_>,
    store: &mut S,
    out: &mut O,
    err: &mut E,
) -> Result<(), Halt>
    ensures clauses { Clauses (record {
      request = request_of ask.now;
      files = S.held store.old;
      faults_old = S.faults store.old;
      faults_new = S.faults store.new;
      reason = S.why store.new;
      out_old = sink_view O.written O.faults out.old;
      out_new = sink_view O.written O.faults out.new;
      err_old = sink_view E.written E.faults err.old;
      err_new = sink_view E.written E.faults err.new;
    }) result }

    // Out is as it was where it is not done for another cause than out itself, also where a sink
    // tells nothing; err is where it is done.
    ensures unwritten { IsEarly result → out.new ≡ out.old }
    ensures quiet { IsDone result → err.new ≡ err.old }
{
    match written(alloc, ask, store, out) {
        Ok(()) => Ok(()),
        Err(halt) => {
            let _ = put_halt(err, ask, store.reason(), &halt);
            Err(halt)
        }
    }
}

// All of the call but the line to err.
fn written<S: Store, O: Sink>(
    alloc: Global,
    ask: &RecordsAsk<'_>,
    store: &mut S,
    out: &mut O,
) -> Result<(), Halt>
    ensures { EndsOf (sink_view O.written O.faults) (S.held store.old) (S.faults store.old)
        (S.faults store.new) (course_of (request_of ask.now)) out.old out.new result }
{
    let text = text_of(alloc, ask, store)?;
    put_all(out, text.as_slice())?;
    Ok(())
}

// The text.
fn text_of<S: Store>(alloc: Global, ask: &RecordsAsk<'_>, store: &mut S) -> Result<Vec<u8>, Halt>
    ensures { Runs (S.held store.old) (S.faults store.old) (S.faults store.new)
        (course_of (request_of ask.now)) (text_seen result) }
{
    let bytes = fetch_file(alloc, store, File::Line, ask.line, SMALL)?;
    let line = read_line(alloc, ask.line, bytes.as_slice())?;
    text_for_line(alloc, ask, &line, store)
}

// The text, once the line is read.
fn text_for_line<S: Store>(
    alloc: Global,
    ask: &RecordsAsk<'_>,
    line: &Line,
    store: &mut S,
) -> Result<Vec<u8>, Halt>
    ensures { Runs (S.held store.old) (S.faults store.old) (S.faults store.new)
        (with_line ask.now.work ask.now.map.now line.now) (text_seen result) }
{
    let bytes = fetch_file(alloc, store, File::Map, ask.map, SMALL)?;
    let asked = Asked {
        work: ask.work,
        name: ask.map,
        bytes: bytes.as_slice(),
    };
    text_by_map(alloc, asked, line, store)
}

// The text, once the map is fetched.
fn text_by_map<S: Store>(
    alloc: Global,
    asked: Asked<'_>,
    line: &Line,
    store: &mut S,
) -> Result<Vec<u8>, Halt>
    ensures { Runs (S.held store.old) (S.faults store.old) (S.faults store.new)
        (after_map (asked_values asked.entry) line.now (map_of line.now asked.entry.bytes.now))
        (text_seen result) }
{
    let map = read_map(alloc, line, asked)?;
    match untold(asked.work, line, &map) {
        Some(signal) => Err(untold_halt(alloc, asked, line, signal)),
        None => text_for_map(alloc, asked, line, &map, store),
    }
}

// The first key or trip that a record lacks.
fn untold(work: RecordsWork, line: &Line, map: &Map) -> Option<Signal>
    ensures { result ≡ untold_by work line.now (map_values map.now) }
{
    match work {
        RecordsWork::Scripts | RecordsWork::Show => None,
        RecordsWork::Record => first_untold(line, map.recorders.as_slice()),
    }
}

// The text, once the map is read.
fn text_for_map<S: Store>(
    alloc: Global,
    asked: Asked<'_>,
    line: &Line,
    map: &Map,
    store: &mut S,
) -> Result<Vec<u8>, Halt>
    requires few { length map.now.recorders.items ≤ 8 }
    requires plain { IsTrue (is_plain_name map.now.script) }
    requires deadline { IsTrue (deadline_fits line.now.horizon map.now.kind map.now.deadline) }
    ensures { Runs (S.held store.old) (S.faults store.old) (S.faults store.new)
        (recorders_course asked.entry.name.now (map_values map.now).recorders []
        (over (asked_values asked.entry) line.now (map_values map.now))) (text_seen result) }
{
    let files = fetch_recorders(alloc, store, asked.name, map.recorders.as_slice())?;
    answer(alloc, asked, line, map, files.as_slice())
}
