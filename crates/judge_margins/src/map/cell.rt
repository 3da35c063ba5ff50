//! What is known of a cell.

ghost use Rattle.std.specs.Prelude.{◌≡◌, ◌<◌, ◌^◌, IfOk, length};
ghost use Rattle.std.specs.List.{list_all, list_any};
ghost use Rattle.judge_margins.specs.map.Cells.{is_held as rule_is_held, is_broken as rule_is_broken};
ghost use Rattle.judge_margins.specs.map.Cells.{word_of, lost_of};

use judge_verdict::verdict::Rule;
use model_line::Memory;
use std::alloc::Global;

/// What the interval rules say of each obligation over a cell: script by script, and in each
/// terminal by terminal.
#[derive(Drop)]
pub struct Cell {
    pub rules: Vec<Rule>,
}

/// A cell in a word: every rule is held, some rule is broken, or neither.
#[derive(Clone, Copy)]
pub enum Word {
    Held,
    Open,
    Fails,
}

impl Cell {
    /// The cell in a word.
    pub fn word(&self) -> Word
        ensures { result ≡ word_of self.now.rules.items }
    {
        if all_held(self.rules.as_slice()) {
            Word::Held
        } else if some_broken(self.rules.as_slice()) {
            Word::Fails
        } else {
            Word::Open
        }
    }
}

fn all_held(rules: &[Rule]) -> bool
    ensures { result ≡ list_all rule_is_held rules.now }
{
    rules.iter().all(|rule| is_held(*rule))
}

fn some_broken(rules: &[Rule]) -> bool
    ensures { result ≡ list_any rule_is_broken rules.now }
{
    rules.iter().any(|rule| is_broken(*rule))
}

/// Whether the rule is held.
pub fn is_held(rule: Rule) -> bool
    ensures { result ≡ rule_is_held rule }
{
    match rule {
        Rule::Held => true,
        Rule::Broken | Rule::Unknown => false,
    }
}

fn is_broken(rule: Rule) -> bool
    ensures { result ≡ rule_is_broken rule }
{
    match rule {
        Rule::Broken => true,
        Rule::Held | Rule::Unknown => false,
    }
}

impl Cell {
    /// The places of the obligations whose rule is not held, in order.
    pub fn lost(&self, alloc: Global) -> Result<Vec<u32>, Memory>
        requires { length self.now.rules.items < 2 ^ 32 }
        ensures { IfOk result (λ lost. lost.items ≡ lost_of self.now.rules.items) }
    {
        let mut lost = Vec::new(alloc);
        for place in 0..self.rules.len() {
            if !is_held(self.rules[place]) {
                lost.push(place as u32)?;
            }
        }
        Ok(lost)
    }
}
