//! The rules of a part: with one border that stands still, and with each in turn.

ghost use Rattle.std.specs.Prelude.{◌≡◌, ◌≤◌, ◌<◌, ◌⊎◌, Some, length, slice_get, IfOk};
ghost use Rattle.model_line.specs.Parameters.{terminal_count};
ghost use Rattle.judge_borders.specs.Parts.{AreRules, CanAsk, IsPart, line_of};

use crate::fault::{Fault, PartRule};
use crate::ruled::rule_at;
use crate::view::view_of;
use model_borders::between_laws::{borders_stand_within, what_is_shown_lies_between};
use model_borders::shift_laws::histories_shift;
use model_borders::{latest_place, two_scripts};
use model_history::laws::history_laws;
use model_line::Memory;
use run_borders::{LooseRun, loose_waves};
use run_signal::Within;
use std::alloc::Global;

/// What the interval rules say of each terminal over a part, an interval for each length that is not known, where
/// one border stands still: of all lengths of the part, in fractions of a tick too. What is known already stays. It
/// is open where what is asked goes past the horizon, as it may where another border than the first stands still.
pub fn rules_at(
    alloc: Global,
    fault: &Fault<'_>,
    part: &[Within],
    still: u32,
    known: &[PartRule],
) -> Result<Vec<PartRule>, Memory>
    requires fault { CanAsk fault.now }
    requires part { IsPart part.now }
    requires known { AreRules fault.now part.now known.now }
    ensures { IfOk result (λ rules. AreRules fault.now part.now rules.items) }
{
    history_laws();
    histories_shift();
    what_is_shown_lies_between();
    borders_stand_within();
    let place = latest_place(fault.script.borders.as_slice(), part, still);
    let two = two_scripts(alloc, fault.script, part, still, place)?;
    let run = LooseRun {
        compiled: fault.compiled,
        certain: &two.certain,
        perhaps: &two.perhaps,
        spans: fault.spans,
    };
    let waves = loose_waves(alloc, &run)?;
    let view = view_of(fault, part, still, place);
    let mut rules = Vec::new(alloc);
    for k in 0..fault.compiled.line.terminals.len() {
        let rule = rule_at(&run, waves.as_slice(), k as u32, fault.asked, view);
        let said = said_of(known, k);
        rules.push(kept(said, rule))?;
    }
    Ok(rules)
}

/// The same with each border in turn, until all is known. Each run over the line is counted.
pub fn part_rules(
    alloc: Global,
    fault: &Fault<'_>,
    part: &[Within],
    known: &[PartRule],
    runs: &mut u32,
) -> Result<Vec<PartRule>, Memory>
    requires fault { CanAsk fault.now }
    requires part { IsPart part.now }
    requires known { AreRules fault.now part.now known.now }
    requires borders { length fault.now.script.now.borders.items ≤ 100 }
    ensures { IfOk result (λ rules. AreRules fault.now part.now rules.items) }
{
    let mut rules = Vec::from_slice(alloc, known)?;
    for still in 0..fault.script.borders.len() as u32 {
        if !some_open(rules.as_slice()) {
            return Ok(rules);
        }
        rules = rules_at(alloc, fault, part, still, rules.as_slice())?;
        *runs = runs.saturating_add(1);
    }
    Ok(rules)
}

/// Nothing is known of any terminal.
pub fn no_rules(alloc: Global, fault: &Fault<'_>, part: &[Within]) -> Result<Vec<PartRule>, Memory>
    ensures { IfOk result (λ rules. AreRules fault.now part.now rules.items) }
{
    let mut rules = Vec::new(alloc);
    for i in 0..fault.compiled.line.terminals.len() {
        let _terminal = i;
        rules.push(PartRule::Open)?;
    }
    Ok(rules)
}

// What is known of a terminal.
fn said_of(known: &[PartRule], terminal: usize) -> PartRule
    requires { terminal < length known.now }
    ensures { slice_get known.now terminal ≡ Some result }
{
    known[terminal]
}

// What is known, or else the rule.
fn kept(known: PartRule, rule: PartRule) -> PartRule
    ensures { (result ≡ known) ⊎ (result ≡ rule) }
{
    match known {
        PartRule::Open => rule,
        PartRule::Held | PartRule::Broken => known,
    }
}

/// Whether of some terminal nothing is known.
pub fn some_open(rules: &[PartRule]) -> bool {
    rules.iter().any(|rule| is_open(*rule))
}

fn is_open(rule: PartRule) -> bool {
    match rule {
        PartRule::Open => true,
        PartRule::Held | PartRule::Broken => false,
    }
}
