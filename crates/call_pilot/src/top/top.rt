//! The top call.
ghost use Rattle.std.specs.Prelude.{◌≡◌, ◌↔◌, map, string_bytes};
ghost use Rattle.call_pilot.specs.top.Clauses.{Clauses};
ghost use Rattle.call_files.specs.Status.{IsDone, IsEarly};
ghost use Rattle.call_pilot.specs.top.Words.{command_of};
ghost use Rattle.call_answer.specs.Sinks.{sink_view};

use crate::top::laws::what_is_answered_is_true;
use crate::top::run::answer;
use base_text::store::{Sink, Store};
use call_engine::Engine;
use call_files::{Status, put_message};
use std::alloc::Global;

/// Does the command that the words are, by the engine, over the store, with its text on `out` and,
/// where it stops with status 4 to 8, one line on `err`.
///
/// The commands are `play LINE SCRIPTS TIMINGS`, `certify LINE SCRIPTS`, `report LINE SCRIPTS`,
/// `check LINE SCRIPTS CERT`, `match LINE SCRIPTS RECORD`, `margin LINE SCRIPTS PARAMETER`,
/// `split LINE SCRIPTS DEPTH`, `recheck LINE SCRIPTS TREES`, `net LINE`, `line LINE` and
/// `migrate LINE`, with the names of files and of a parameter of the line and a number from 0 to 8,
/// and `bench N`. The files are fetched in the order of the words, and then the line, the scripts,
/// and the timings, the record or the parameter are read. Any other words are a usage fault.
pub fn pilot<G: Engine, S: Store, O: Sink, E: Sink>(
    alloc: Global,
    words: &[String],
    engine: &mut G,
    store: &mut S,
    out: &mut O,
    err: &mut E,
) -> Status
    ensures clauses { Clauses (record {
      command = command_of (map string_bytes words.now);
      files = S.held store.old;
      faults_old = S.faults store.old;
      faults_new = S.faults store.new;
      asked_old = G.calls engine.old;
      asked_new = G.calls engine.new;
      out_old = sink_view O.written O.faults out.old;
      out_new = sink_view O.written O.faults out.new;
      err_old = sink_view E.written E.faults err.old;
      err_new = sink_view E.written E.faults err.new;
    }) result }

    // Status 4 comes exactly where the words are no command, and leaves the store as it was.
    ensures usage { (result ≡ Status.Usage) ↔ (command_of (map string_bytes words.now) ≡ None) }
    ensures untouched { command_of (map string_bytes words.now) ≡ None → store.new ≡ store.old }

    // Status 4 to 6 leaves out as it was, also where a sink tells nothing; status 0 to 3 leaves err.
    ensures unwritten { IsEarly result → out.new ≡ out.old }
    ensures quiet { IsDone result → err.new ≡ err.old }
{
    what_is_answered_is_true();
    match answer(alloc, words, engine, store, out) {
        Ok(status) => status,
        Err(stop) => {
            let _ = put_message(err, &stop);
            stop.status()
        }
    }
}
