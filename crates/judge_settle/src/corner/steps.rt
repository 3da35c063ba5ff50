//! The delays of the corner as steps.

ghost use Rattle.std.specs.Prelude.{◌≡◌, ◌<◌, ◌≤◌, length, IfOk, OnOk};
ghost use Rattle.model_line.specs.Parameters.{channel_count, terminal_count, param_count};
ghost use Rattle.judge_verdict.specs.verdict.PairWavesOf.{pair_history};
ghost use Rattle.judge_settle.specs.corner.Named.{rail_named};
ghost use Rattle.judge_settle.specs.corner.Corner.{corner};
ghost use Rattle.judge_settle.specs.corner.Steps.{AreStepsUpTo, with_change};

use crate::corner::delays::delay_from;
use crate::corner::rail::Rail;
use judge_verdict::verdict::PairWaves;
use model_line::laws::{delays_are_parameters, settings_are_counted};
use model_line::{Line, Memory};
use model_timing::Step;
use run_signal::Tick;
use std::alloc::Global;

/// The steps of all delays: one at each tick from 1 on at which the worst delay changes.
pub fn worst_steps(
    alloc: Global,
    line: &Line,
    waves: &PairWaves,
    rail: Rail,
    numbers: &[Tick],
) -> Result<Vec<Step<Tick>>, Memory>
    requires count { length numbers.now ≡ param_count line.now }
    requires terminals { waves.now.terminals ≡ terminal_count line.now }
    requires horizon { waves.now.horizon ≡ line.now.horizon }
    ensures { IfOk result (λ steps.
        AreStepsUpTo line.now (corner line.now (rail_named rail) (pair_history waves.now)).delay
        numbers.now (channel_count line.now) 1 steps.items) }
{
    settings_are_counted();
    let mut steps = Vec::new(alloc);
    for channel in 0..line.channels.len() {
        push_steps(&mut steps, line, waves, rail, numbers, channel as u32)?;
    }
    Ok(steps)
}

// Adds those of one channel's delay.
fn push_steps(
    steps: &mut Vec<Step<Tick>>,
    line: &Line,
    waves: &PairWaves,
    rail: Rail,
    numbers: &[Tick],
    channel: u32,
) -> Result<(), Memory>
    requires count { length numbers.now ≡ param_count line.now }
    requires terminals { waves.now.terminals ≡ terminal_count line.now }
    requires horizon { waves.now.horizon ≡ line.now.horizon }
    requires channel { channel < channel_count line.now }
    requires steps { AreStepsUpTo line.now
        (corner line.now (rail_named rail) (pair_history waves.now)).delay
        numbers.now channel 1 steps.old.items }
    ensures { OnOk result (AreStepsUpTo line.now
        (corner line.now (rail_named rail) (pair_history waves.now)).delay
        numbers.now channel line.now.horizon steps.new.items) }
{
    delays_are_parameters();
    settings_are_counted();
    let param = line.delay_of(channel);
    let mut last = numbers[param as usize].value();
    let mut t = 1;
    'changes: while t < line.horizon {
        let lasting = delay_from(line, waves, rail, channel, t);
        push_change(steps, param, t, last, lasting.delay)?;
        last = lasting.delay;
        t = lasting.until;
    }
    Ok(())
}

// Adds a step at the tick where the delay differs from the last one.
fn push_change(
    steps: &mut Vec<Step<Tick>>,
    param: u32,
    t: u32,
    last: u32,
    delay: u32,
) -> Result<(), Memory>
    requires { delay ≤ 4000 }
    ensures { OnOk result (steps.new.items ≡ with_change steps.old.items param t last delay) }
{
    if delay == last {
        return Ok(());
    }
    steps.push(Step {
        param,
        from: t,
        value: Tick::new(delay),
    })?;
    Ok(())
}
