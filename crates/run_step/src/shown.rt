//! What a script shows, tick after tick. Its spans are looked through once for a run.

ghost use Rattle.std.specs.Prelude.{◌≡◌, ℕ, ◌<◌, ◌≤◌, ◌+◌, ◌++◌, length, drop, Some, IfOk, nat_lt};
ghost use Rattle.std.specs.Prelude.{slice_get, vec_capacity};
ghost use Rattle.std.specs.List.{filter};
ghost use Rattle.std.specs.List.Sorted.{IsPermutation, IsNonDecreasingBy};
ghost use Rattle.model_line.specs.declared.script.SeenSpan.{SeenSpan};
ghost use Rattle.run_step.specs.Quiet.{ScriptKeeps, SpanKeeps, AllKeep};
ghost use Rattle.run_step.specs.Shown.{ShowTheSame, not_over};

use crate::minimum::lesser;
use model_line::{Memory, Script, SeenSpan};
use std::alloc::Global;
use std::marker::Model;

/// The spans of a script that hold a tick, and those that begin later. Contracts see both.
#[derive(Drop)]
pub struct Shown {
    present: Vec<SeenSpan>,
    // All spans in order of their beginnings, of which so many have begun.
    ordered: Vec<SeenSpan>,
    begun: usize,
}

impl Model for Shown {
    ghost use Rattle.std.specs.Prelude.{drop, vec_capacity};
    ghost use Rattle.run_step.specs.Shown.{ShownSpans, AreInOrder};

    ghost Value = { ShownSpans };

    ghost view = { λ a. record { present = a.present.items; ahead = drop a.begun a.ordered.items } };

    ghost invariant = { λ a. AreInOrder a.present.items (vec_capacity a.present) a.ordered.items
        a.begun };
}

impl Shown {
    /// What is shown before tick 0. All memory is taken here.
    pub fn new(alloc: Global, script: &Script) -> Result<Self, Memory>
        ensures { IfOk result (λ shown. (r : ℕ) →
            ShowTheSame r (not_over shown) script.now.spans.items) }
    {
        let present = Vec::with_capacity(alloc, script.spans.len())?;
        let ordered = in_order(alloc, &script.spans)?;
        Ok(Shown {
            present,
            ordered,
            begun: 0,
        })
    }

    /// Those that hold the tick turned to last.
    pub fn present(&self) -> &[SeenSpan]
        ensures { result.now ≡ self.now.present }
    {
        &self.present
    }

    /// Turns to a tick, and answers for how many ticks from it on, up to 4,000, the same are present.
    pub fn turn(&mut self, t: u32) -> u32
        ensures some { 1 ≤ result }
        ensures limited { result ≤ 4000 }
        ensures left { (r : ℕ) → t ≤ r → ShowTheSame r (not_over self.new) (not_over self.old) }
        ensures shown { (r : ℕ) → t ≤ r → r < t + result →
            ShowTheSame r self.new.present (not_over self.old) }
        ensures keeps { ScriptKeeps (not_over self.old) t result }
    {
        self.begun = take_begun(&self.ordered, self.begun, &mut self.present, t);
        drop_ended(&mut self.present, t);
        lesser(
            all_stay(&self.present, t),
            next_begins(&self.ordered, self.begun, t),
        )
    }
}

// The spans in order of their beginnings.
fn in_order(alloc: Global, spans: &[SeenSpan]) -> Result<Vec<SeenSpan>, Memory>
    ensures same { IfOk result (λ ordered. IsPermutation spans.now ordered.items) }
    ensures rising { IfOk result (λ ordered.
        IsNonDecreasingBy (λ (s : SeenSpan). s.from) ordered.items) }
{
    let mut ordered = Vec::from_slice(alloc, spans)?;
    ordered.sort_unstable_by_key(|span| span.from);
    Ok(ordered)
}

// Appends those that have begun by the tick, and answers how many have begun.
fn take_begun(ordered: &[SeenSpan], begun: usize, present: &mut Vec<SeenSpan>, t: u32) -> usize
    requires inside { begun ≤ length ordered.now }
    requires few { length present.old.items ≤ begun }
    requires room { length ordered.now ≤ vec_capacity present.old }
    ensures inside { result ≤ length ordered.now }
    ensures few { length present.new.items ≤ result }
    ensures room { length ordered.now ≤ vec_capacity present.new }
    ensures same { present.new.items ++ drop result ordered.now
        ≡ present.old.items ++ drop begun ordered.now }
    ensures later { (s : SeenSpan) → slice_get ordered.now result ≡ Some s → t < s.from }
{
    let mut taken = begun;
    while taken < ordered.len() && ordered[taken].from <= t {
        present.push_reserved(ordered[taken]);
        taken += 1;
    }
    taken
}

// Leaves those that end after the tick.
fn drop_ended(present: &mut Vec<SeenSpan>, t: u32)
    ensures items { present.new.items ≡ filter (λ (s : SeenSpan). nat_lt t s.to) present.old.items }
    ensures few { length present.new.items ≤ length present.old.items }
    ensures room { vec_capacity present.new ≡ vec_capacity present.old }
{
    present.retain(|span| t < span.to);
}

// How many ticks there are before the next one begins; if none does, 4,000.
fn next_begins(ordered: &[SeenSpan], begun: usize, t: u32) -> u32
    requires { (s : SeenSpan) → slice_get ordered.now begun ≡ Some s → t < s.from }
    ensures some { 1 ≤ result }
    ensures before { (s : SeenSpan) → slice_get ordered.now begun ≡ Some s → t + result ≤ s.from }
{
    match ordered.get(begun) {
        Some(span) => span.from - t,
        None => 4000,
    }
}

/// For how many ticks from this one on, up to 4,000, each of them is there or is not.
pub fn all_stay(spans: &[SeenSpan], t: u32) -> u32
    ensures some { 1 ≤ result }
    ensures limited { result ≤ 4000 }
    ensures keep { AllKeep t result spans.now }
{
    let mut stays = 4000;
    for span in spans {
        stays = lesser(stays, span_stays(span, t));
    }
    stays
}

// The same of one span.
fn span_stays(span: &SeenSpan, t: u32) -> u32
    ensures some { 1 ≤ result }
    ensures keeps { SpanKeeps t result span.now }
{
    ticks_until(span.from, t).min(ticks_until(span.to, t))
}

// How many ticks there are before an event that is to come; else 4,000.
fn ticks_until(event: u32, t: u32) -> u32
    ensures some { 1 ≤ result }
    ensures before { t < event → t + result ≤ event }
{
    if t < event { event - t } else { 4000 }
}
