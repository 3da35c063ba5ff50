//! What is told of a part of the times.

ghost use Rattle.std.specs.Prelude.{◌≡◌, ◌<◌, ◌++◌, ◌∷◌, [], IfOk, List, Some, length, slice_get};
ghost use Rattle.std.specs.List.{All};
ghost use Rattle.model_history.specs.Rails.{Ends};
ghost use Rattle.judge_borders.specs.{Parts.AreRules, Parts.IsPart, Halves.AreWithin};
ghost use Rattle.judge_times.specs.Answers.{AreFailing, IsAnswer};
ghost use Rattle.judge_times.specs.Told.{IsToldOf, told_by as told_for};
ghost use Rattle.judge_times.specs.declared.fault.Uncertain.{Uncertain};
ghost use Rattle.judge_times.specs.declared.part.Part.{Part as PartOf};

use judge_borders::PartRule;
use model_line::Memory;
use run_signal::Within;
use std::alloc::Global;

/// What is told of a terminal over a part. Held: at each of its times what is asked is met by every choice.
/// Broken: at each of them by none. Fails: at its least times a timing fails it. Open: nothing.
#[derive(Clone, Copy)]
pub enum Told {
    Held,
    Broken,
    Fails,
    Open,
}

/// An interval for each time that is not known, and what is told of each terminal.
#[derive(Drop)]
pub struct Part {
    pub lengths: Vec<Within>,
    pub told: Vec<Told>,
}

/// Appends a part, of which these are the rules, and of which these terminals fail at the least times.
pub(crate) fn push_told(
    alloc: Global,
    part: &[Within],
    rules: &[PartRule],
    fails: &[bool],
    found: &mut Vec<Part>,
) -> Result<(), Memory>
    ensures { IfOk result (λ _. (own : PartOf) × (found.new.items ≡ found.old.items ++ own ∷ [])
        × (own.lengths.items ≡ part.now)
        × ((of : Uncertain) (whole : List Ends) → IsPart part.now → AreWithin whole part.now →
        AreRules of.fault part.now rules.now → AreFailing of part.now fails.now →
        IsAnswer of whole own)) }
{
    let lengths = Vec::from_slice(alloc, part)?;
    let told = told_of(alloc, rules, fails)?;
    found.push(Part { lengths, told })?;
    Ok(())
}

/// Appends a part if some terminal fails at its least times.
pub(crate) fn push_failing(
    alloc: Global,
    part: &[Within],
    rules: &[PartRule],
    fails: &[bool],
    found: &mut Vec<Part>,
) -> Result<(), Memory>
    ensures { IfOk result (λ _. (more : List PartOf) × (found.new.items ≡ found.old.items ++ more)
        × ((of : Uncertain) (whole : List Ends) → IsPart part.now → AreWithin whole part.now →
        AreRules of.fault part.now rules.now → AreFailing of part.now fails.now →
        All (IsAnswer of whole) more)) }
{
    if some_fail(fails) {
        push_told(alloc, part, rules, fails, found)
    } else {
        Ok(())
    }
}

fn some_fail(fails: &[bool]) -> bool {
    fails.iter().any(|one| *one)
}

// What the rules tell; where one is open, whether the least times fail.
fn told_of(alloc: Global, rules: &[PartRule], fails: &[bool]) -> Result<Vec<Told>, Memory>
    ensures { IfOk result (λ told. IsToldOf rules.now fails.now told.items) }
{
    let mut told = Vec::new(alloc);
    for k in 0..rules.len() {
        let rule = rule_at(rules, k);
        let mark = mark_at(fails, k);
        told.push(told_by(rule, mark))?;
    }
    Ok(told)
}

fn rule_at(rules: &[PartRule], k: usize) -> PartRule
    requires { k < length rules.now }
    ensures { slice_get rules.now k ≡ Some result }
{
    rules[k]
}

// Whether the least times are told to fail, if something is told of them.
fn mark_at(fails: &[bool], k: usize) -> Option<bool>
    ensures { result ≡ slice_get fails.now k }
{
    if k < fails.len() {
        Some(fails[k])
    } else {
        None
    }
}

fn told_by(rule: PartRule, fails: Option<bool>) -> Told
    ensures { result ≡ told_for rule fails }
{
    match rule {
        PartRule::Held => Told::Held,
        PartRule::Broken => Told::Broken,
        PartRule::Open => match fails {
            Some(true) => Told::Fails,
            Some(false) | None => Told::Open,
        },
    }
}
