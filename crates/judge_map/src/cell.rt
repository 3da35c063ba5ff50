//! A cell that is settled.

ghost use Rattle.std.specs.Prelude.{◌≡◌, ◌<◌, ◌^◌, IfOk, IfSome, length};
ghost use Rattle.std.specs.List.{list_all, list_any, position};
ghost use Rattle.judge_map.specs.Known.{fails as known_to_fail, is_held as known_held, is_never_met as known_never};
ghost use Rattle.judge_map.specs.Cells.{failing_of, lost_of, word_of};

use crate::known::{Known, fails, is_held, is_never_met};
use model_line::Memory;
use std::alloc::Global;

/// What is known of each obligation over a cell: script by script, and in each terminal by terminal.
#[derive(Drop)]
pub struct SettledCell {
    pub known: Vec<Known>,
}

/// A cell in a word: every obligation is held, some obligation fails, or neither is known.
#[derive(Clone, Copy)]
pub enum Word {
    Held,
    Open,
    Fails,
}

impl SettledCell {
    /// The cell in a word.
    pub fn word(&self) -> Word
        ensures { result ≡ word_of self.now.known.items }
    {
        if all_held(self.known.as_slice()) {
            Word::Held
        } else if some_fails(self.known.as_slice()) {
            Word::Fails
        } else {
            Word::Open
        }
    }

    /// The places of the obligations that are not held, in order.
    pub fn lost(&self, alloc: Global) -> Result<Vec<u32>, Memory>
        requires { length self.now.known.items < 2 ^ 32 }
        ensures { IfOk result (λ lost. lost.items ≡ lost_of self.now.known.items) }
    {
        let mut lost = Vec::new(alloc);
        for place in 0..self.known.len() {
            if !is_held(self.known[place]) {
                lost.push(place as u32)?;
            }
        }
        Ok(lost)
    }

    /// The place of the first obligation that no choice meets, else that of the first that some choice
    /// fails, if there is one.
    pub fn failing(&self) -> Option<u32>
        requires { length self.now.known.items < 2 ^ 32 }
        ensures is { result ≡ failing_of self.now.known.items }
        ensures within { IfSome result (λ place. place < length self.now.known.items) }
    {
        let known = self.known.as_slice();
        match first_never_met(known).or(first_failing(known)) {
            Some(place) => Some(place as u32),
            None => None,
        }
    }
}

fn all_held(known: &[Known]) -> bool
    ensures { result ≡ list_all known_held known.now }
{
    known.iter().all(|one| is_held(*one))
}

fn some_fails(known: &[Known]) -> bool
    ensures { result ≡ list_any known_to_fail known.now }
{
    known.iter().any(|one| fails(*one))
}

fn first_never_met(known: &[Known]) -> Option<usize>
    ensures within { IfSome result (λ place. place < length known.now) }
    ensures is { result ≡ position known_never known.now }
{
    known.iter().position(|one| is_never_met(*one))
}

fn first_failing(known: &[Known]) -> Option<usize>
    ensures within { IfSome result (λ place. place < length known.now) }
    ensures is { result ≡ position known_to_fail known.now }
{
    known.iter().position(|one| fails(*one))
}
