//! The call.

ghost use Rattle.std.specs.Prelude.{◌≡◌, map};
ghost use Rattle.call_answer.specs.Sinks.{sink_view};
ghost use Rattle.call_inspect.specs.{Clauses.Clauses, Ends.EndsOf, Ends.TextOf};
ghost use Rattle.call_inspect.specs.Halts.{IsDone, IsEarly};

use crate::fetch::fetch_files;
use crate::halt::{Halt, put_halt};
use crate::inspected::inspected;
use base_files::Reasoned;
use base_text::store::{Sink, Store, put_all};
use call_answer::{Done, Said};
use std::alloc::Global;

/// What is found in files of any kind, with its text on `out` and, where it is not done, one line on
/// `err`.
///
/// All files are fetched first, in their order, each once and as a whole. The text has, file by file, one
/// line where it is refused, `FILE:LINE:COLUMN: what is wrong; write ..`, or a line for each thing
/// that is suspicious; the status is that of the worst: 3, 2 or 0. The line on `err` names the file that
/// is not read, with the store's reason. Of `out`, which has no name here, nothing is said on `err`.
pub fn inspect<S: Reasoned, O: Sink, E: Sink>(
    alloc: Global,
    names: &[&str],
    store: &mut S,
    out: &mut O,
    err: &mut E,
) -> Result<Done, Halt>
    ensures clauses { Clauses (record {
      names = map (λ name. name.now) names.now;
      files = S.held store.old;
      faults_old = S.faults store.old;
      faults_new = S.faults store.new;
      reason = S.why store.new;
      out_old = sink_view O.written O.faults out.old;
      out_new = sink_view O.written O.faults out.new;
      err_old = sink_view E.written E.faults err.old;
      err_new = sink_view E.written E.faults err.new;
    }) result }

    // Out is as it was where it is not done for another cause than out itself, also where a sink
    // tells nothing; err is where it is done.
    ensures unwritten { IsEarly result → out.new ≡ out.old }
    ensures quiet { IsDone result → err.new ≡ err.old }
{
    match written(alloc, names, store, out) {
        Ok(status) => Ok(status),
        Err(halt) => {
            let _ = put_halt(err, names, store.reason(), halt);
            Err(halt)
        }
    }
}

// All of the call but the line to err.
fn written<S: Store, O: Sink>(
    alloc: Global,
    names: &[&str],
    store: &mut S,
    out: &mut O,
) -> Result<Done, Halt>
    ensures { EndsOf (sink_view O.written O.faults) (S.held store.old) (S.faults store.old)
        (S.faults store.new) (map (λ name. name.now) names.now) out.old out.new result }
{
    let said = said_of(alloc, names, store)?;
    put_all(out, said.text.as_slice())?;
    Ok(said.status)
}

// The status and the text.
fn said_of<S: Store>(alloc: Global, names: &[&str], store: &mut S) -> Result<Said, Halt>
    ensures { TextOf (S.held store.old) (S.faults store.old) (S.faults store.new)
        (map (λ name. name.now) names.now) result }
{
    let files = fetch_files(alloc, store, names)?;
    let said = inspected(alloc, files.as_slice())?;
    Ok(said)
}
