//! One tick at which some gate may change, and those after it at which none does.

ghost use Rattle.std.specs.Prelude.{◌≡◌, ℕ, ◌<◌, ◌≤◌, ◌+◌};
ghost use Rattle.model_line.specs.declared.script.Script.{Script};
ghost use Rattle.run_changes.specs.changes.Tracks.{CanTake, IsKeptOf};
ghost use Rattle.run_step.specs.Runs.{CanRun};

use crate::changes::hear::hear;
use crate::changes::kept::Kept;
use crate::changes::marks::quiet_ticks;
use crate::changes::trace::trace;
use model_history::laws::history_laws;
use model_history::recorded_laws::recorded_ticks_suffice;
use model_logic::laws::line_laws;
use net_gates::laws::gates_stand_for_their_trees;
use run_signal::{Carried, Timed, elements_stay_in_a_stretch};
use run_step::{Moment, Run, renew_delays, send_all};

/// Takes the ticks from this one on until some gate is due, and answers how many.
pub fn take_stretch<V: Timed + Carried>(
    run: &Run<'_, V::Span>,
    kept: &mut Kept<V::Cells, V, V::Span>,
    t: u32,
) -> u32
    requires can { CanRun V.signal run.now }
    requires tick { t < run.now.compiled.now.line.now.horizon }
    requires kept { CanTake V.signal run.now t kept.old }
    ensures some { 1 ≤ result }
    ensures fits { t + result ≤ run.now.compiled.now.line.now.horizon }
    ensures kept { CanTake V.signal run.now (t + result) kept.new }
    ensures stands { (script : Script) →
        IsKeptOf V.signal V.stands_for run.now script t kept.old →
        IsKeptOf V.signal V.stands_for run.now script (t + result) kept.new }
{
    line_laws();
    history_laws();
    gates_stand_for_their_trees();
    elements_stay_in_a_stretch();
    recorded_ticks_suffice();
    renew_delays::<V>(run, &mut kept.delays, t);
    let moment = Moment {
        line: run.compiled.line,
        delays: kept.delays.list.as_slice(),
        sent: kept.keys.as_slice(),
        t,
    };
    trace::<V>(run.compiled.net, &kept.shown, &moment, &mut kept.gates);
    hear::<V>(
        run.compiled.net,
        kept.gates.column.as_slice(),
        &moment,
        &mut kept.gates.dues,
        &mut kept.gates.marks,
    );
    let stays = quiet_ticks(&mut kept.gates.marks, t);
    send_all(
        run.compiled.net.key_gates(),
        kept.gates.column.as_slice(),
        &mut kept.keys,
        run.compiled.line.horizon,
        t,
        stays,
    );
    send_all(
        run.compiled.net.trip_gates(),
        kept.gates.column.as_slice(),
        &mut kept.trips,
        run.compiled.line.horizon,
        t,
        stays,
    );
    stays
}
