//! What a net is given at a tick: what its script shows and loses, and its delays.

ghost use Rattle.std.specs.Prelude.{◌≡◌, ℕ, ◌<◌, ◌≤◌, ◌+◌, List, length, IfOk};
ghost use Rattle.std.specs.Prelude.{slice_get, Some};
ghost use Rattle.model_line.specs.Parameters.{param_count};
ghost use Rattle.model_line.specs.declared.script.SeenSpan.{SeenSpan};
ghost use Rattle.run_step.specs.{Inputs.AreDelays, Inputs.AreSet, Inputs.DelaysStand, Runs.CanRun};
ghost use Rattle.run_step.specs.{Shown.ShowTheSame, Shown.AreShown, Shown.not_over};
ghost use Rattle.run_step.specs.declared.delays.Delay.{Delay};

use model_line::{Memory, Script};
use run_signal::Signal;
use run_step::{Delay, Run, Shown, fresh_delays, set_delays};
use std::alloc::Global;

/// What the script shows at a tick, the first tick at which it may differ, and the delay of each
/// channel.
#[derive(Drop)]
pub struct Inputs<P: Copy> {
    pub shown: Shown,
    pub until: u32,
    pub delays: Vec<Delay<P>>,
}

/// What is looked up before tick 0. All memory is taken here.
pub fn fresh_inputs<V: Signal>(
    alloc: Global,
    run: &Run<'_, V::Span>,
    script: &Script,
) -> Result<Inputs<V::Span>, Memory>
    requires spans { length run.now.spans.now ≡ param_count run.now.compiled.now.line.now }
    ensures shown { IfOk result (λ inputs. (r : ℕ) →
        ShowTheSame r (not_over inputs.shown) script.now.spans.items) }
    ensures delays { IfOk result (λ inputs.
        AreDelays run.now.compiled.now.line.now inputs.delays.items) }
    ensures over { IfOk result (λ inputs. inputs.until ≡ 0) }
    ensures fresh { IfOk result (λ inputs. (c : ℕ) (d : Delay V.Span) →
        slice_get inputs.delays.items c ≡ Some d → d.until ≡ 0) }
{
    let shown = Shown::new(alloc, script)?;
    let delays = fresh_delays::<V>(alloc, run.compiled.line, run.spans)?;
    Ok(Inputs {
        shown,
        until: 0,
        delays,
    })
}

/// Looks up what is given at a tick.
pub fn turn<V: Signal>(run: &Run<'_, V::Span>, inputs: &mut Inputs<V::Span>, t: u32)
    requires can { CanRun V.signal run.now }
    requires early { t < 4000 }
    requires delays { AreDelays run.now.compiled.now.line.now inputs.old.delays.items }
    requires stand { DelaysStand V.signal run.now t inputs.old.delays.items }
    ensures later { t < inputs.new.until }
    ensures delays { AreDelays run.now.compiled.now.line.now inputs.new.delays.items }
    ensures stand { DelaysStand V.signal run.now t inputs.new.delays.items }
    ensures set { AreSet t inputs.new.delays.items }
    // Of whichever spans it was shown before, it is now.
    ensures shown { (all : List SeenSpan) → AreShown all inputs.old.shown t inputs.old.until →
        AreShown all inputs.new.shown t inputs.new.until }
{
    set_delays::<V>(run, &mut inputs.delays, t);
    if inputs.until <= t {
        inputs.until = t + inputs.shown.turn(t);
    }
}
