//! The first ticks of trips.

ghost use Rattle.std.specs.Prelude.{◌≡◌, ◌<◌, ◌*◌, ◌+◌, Some, IfOk, OnOk, length, slice_get};
ghost use Rattle.model_line.specs.Parameters.{terminal_count};
ghost use Rattle.model_line.specs.declared.script.Script.{Script};
ghost use Rattle.model_logic.specs.Choice.{declared_box};
ghost use Rattle.run_step.specs.Runs.{IsTheHistory};
ghost use Rattle.judge_verdict.specs.verdict.PairWavesOf.{pair_history};
ghost use Rattle.judge_verdict.specs.verdict.OneEach.{OneEach};
ghost use Rattle.call_answer.specs.Study.{IsAnyStudy};
ghost use Rattle.call_facts.specs.FirstTicks.{AreFirstOf, AreFirsts};

use call_answer::Study;
use judge_verdict::verdict::{PairWaves, analyse};
use model_line::Memory;
use net_gates::Compiled;
use std::alloc::Global;

/// The first tick at which the trip of a script at a terminal, both by their numbers, may come, and
/// the first at which it must have come, where there are such.
#[derive(Clone, Copy)]
pub struct Firsts {
    pub script: u32,
    pub terminal: u32,
    pub may: Option<u32>,
    pub must: Option<u32>,
}

/// Those of each obligation, script by script and in each its terminals in line order.
pub fn find_firsts(alloc: Global, study: &Study) -> Result<Vec<Firsts>, Memory>
    requires { IsAnyStudy study.now }
    ensures { IfOk result (λ firsts.
        AreFirsts study.now.line study.now.scripts.items firsts.items) }
{
    let mut firsts = Vec::new(alloc);
    for i in 0..study.scripts.len() {
        push_script(alloc, study, i, &mut firsts)?;
    }
    Ok(firsts)
}

// Adds those of script i.
fn push_script(
    alloc: Global,
    study: &Study,
    i: usize,
    firsts: &mut Vec<Firsts>,
) -> Result<(), Memory>
    requires study { IsAnyStudy study.now }
    requires exists { i < length study.now.scripts.items }
    requires before { OneEach (AreFirstOf study.now.line study.now.scripts.items)
        (i * terminal_count study.now.line) firsts.old.items }
    ensures { OnOk result (OneEach (AreFirstOf study.now.line study.now.scripts.items)
        (i * terminal_count study.now.line + terminal_count study.now.line) firsts.new.items) }
{
    let compiled = Compiled {
        line: &study.line,
        net: &study.net,
    };
    let waves = analyse(alloc, &compiled, &study.scripts[i])?;
    for k in 0..study.line.terminals.len() {
        firsts.push(firsts_of(study, &waves, i, k as u32))?;
    }
    Ok(())
}

// Those of script i at a terminal.
fn firsts_of(study: &Study, waves: &PairWaves, i: usize, terminal: u32) -> Firsts
    requires study { IsAnyStudy study.now }
    requires exists { i < length study.now.scripts.items }
    requires terminal { terminal < terminal_count study.now.line }
    requires terminals { waves.now.terminals ≡ terminal_count study.now.line }
    requires horizon { waves.now.horizon ≡ study.now.line.horizon }
    requires history { (script : Script) → slice_get study.now.scripts.items i ≡ Some script →
        IsTheHistory study.now.line script (declared_box study.now.line)
        (pair_history waves.now) }
    ensures { AreFirstOf study.now.line study.now.scripts.items
        (i * terminal_count study.now.line + terminal) result }
{
    Firsts {
        script: i as u32,
        terminal,
        may: waves.first_may(terminal),
        must: waves.first_must(terminal),
    }
}
