//! A store in memory.
ghost use Rattle.std.specs.Prelude.{◌≡◌, ◌<◌, ◌≤◌, ◌-◌, ◌↔◌, [], ◌∷◌, ◌++◌, Some, min, length};
ghost use Rattle.std.specs.Prelude.{take, drop, IfOk, OnOk, OnErr, IsErr, IfSome};
ghost use Rattle.std.specs.FinMap.{get, insert};
ghost use Rattle.std.specs.Option.{ForSome};
ghost use Rattle.base_text.specs.store.Counts.{Rose, Grew, one_more};
ghost use Rattle.base_text.specs.store.MemoryStore.{StoreState, state_code, empty_store, PullFails};
ghost use Rattle.base_text.specs.store.MemoryStore.{pull_count, after_pull, after_failed_pull};
ghost use Rattle.base_text.specs.store.Store.{IsPiece, SameCounts, NoneFell};
ghost use Rattle.base_text.specs.{store.Bound.at_most, store.Files.files_of};

use crate::store::bound::at_most;
use crate::store::store::{Store, StoreFailed};
use base_memory::Memory;
use std::alloc::Global;
use std::collections::BTreeMap;
use std::marker::Model;

/// A store that holds bytes under names, and fails at the pulls that it is told to fail at.
///
/// Its one count of faults is the count of every name.
#[derive(Drop)]
pub struct MemoryStore {
    alloc: Global,
    files: BTreeMap<String, Vec<u8>>,
    failing: Vec<u64>,
    bound: Option<u32>,
    given: u64,
    pulls: u64,
    faults: u64,
}

impl Model for MemoryStore {
    ghost Value = { StoreState };

    ghost coded = { state_code };

    ghost view = { λ s. record {
      files = files_of s.files.entries;
      failing = s.failing.items;
      bound = s.bound;
      given = s.given;
      pulls = s.pulls;
      faults = s.faults;
    } };

    ghost invariant = { λ s. ForSome s.bound (λ most. 1 ≤ most) };
}

impl MemoryStore {
    /// A store that holds nothing.
    pub fn new(alloc: Global) -> Self
        ensures { result ≡ empty_store }
    {
        MemoryStore {
            alloc,
            files: BTreeMap::new(alloc),
            failing: Vec::new(alloc),
            bound: None,
            given: 0,
            pulls: 0,
            faults: 0,
        }
    }

    /// Puts bytes under a name, in the place of those that it held.
    pub fn hold(&mut self, name: &str, bytes: &[u8]) -> Result<(), Memory>
        ensures ok { OnOk result (self.new
            ≡ record self.old { files = insert self.old.files name.now bytes.now }) }
        ensures err { OnErr result (self.new ≡ self.old) }
    {
        let key = String::from_str(self.alloc, name)?;
        let value = Vec::from_slice(self.alloc, bytes)?;
        self.files.insert(key, value)?;
        Ok(())
    }

    /// Lets the pull of that number fail, the first being 1.
    pub fn fail_at(&mut self, pull: u64) -> Result<(), Memory>
        ensures ok { OnOk result (self.new
            ≡ record self.old { failing = self.old.failing ++ pull ∷ [] }) }
        ensures err { OnErr result (self.new ≡ self.old) }
    {
        self.failing.push(pull)?;
        Ok(())
    }

    /// Bounds each later pull to so many bytes.
    pub fn give_at_most(&mut self, size: u32)
        requires { 1 ≤ size }
        ensures { self.new ≡ record self.old { bound = Some size } }
    {
        self.bound = Some(size);
    }
}

// Copies the bytes from that place on, as many as fit into the piece and the bound allows.
fn copy_from(bytes: &[u8], from: u64, bound: Option<u32>, into: &mut [u8]) -> usize
    requires { ForSome bound (λ most. 1 ≤ most) }
    ensures count { result ≡ at_most bound (min (length bytes.now - from) (length into.old)) }
    ensures copied { into.new ≡ take result (drop from bytes.now) ++ drop result into.old }
    ensures within { result ≤ length into.new }
    ensures piece { IsPiece bytes.now from into.new result }
{
    if from >= bytes.len() as u64 {
        return 0;
    }
    let rest = &bytes[from as usize..];
    let count = at_most(bound, rest.len().min(into.len()));
    into[..count].copy_from_slice(&rest[..count]);
    count
}

impl Store for MemoryStore {
    ghost held = { λ s. get s.files };

    ghost faults = { λ s _. s.faults };

    ghost given = { λ s. s.given };

    ghost pulls = { λ s. s.pulls };

    #[tactic(auto, using(crate::proofs::store_lemmas::FileLaws::held_bytes))]
    fn pull(&mut self, name: &str, from: u64, into: &mut [u8]) -> Result<usize, StoreFailed>
        ensures bound { IfOk result (λ n. n ≤ length into.new) }
        ensures bytes { IfOk result (λ n.
            IfSome (get self.old.files name.now) (λ bytes. IsPiece bytes from into.new n)) }
        ensures held { get self.new.files ≡ get self.old.files }
        ensures later { NoneFell (λ _. self.old.faults) (λ _. self.new.faults) }
        ensures same { OnOk result (SameCounts (λ _. self.old.faults) (λ _. self.new.faults)) }
        ensures failed { OnErr result (Rose self.old.faults self.new.faults) }
        ensures gives { self.old.given ≤ self.new.given }
        ensures given { IfOk result (λ n. Grew self.old.given n self.new.given) }
        ensures pulled { self.old.pulls ≤ self.new.pulls }
        ensures pulls { self.new.pulls ≡ one_more self.old.pulls }

        // It fails exactly where it is told to or holds nothing under the name.
        ensures exact { IsErr result ↔ PullFails self.old name.now }
        ensures fault { OnErr result (self.new ≡ after_failed_pull self.old) }
        ensures untouched { OnErr result (into.new ≡ into.old) }

        // Else it gives all that there is, as far as there is room and the bound allows.
        ensures count { IfOk result (λ n. IfSome (get self.old.files name.now) (λ bytes.
            n ≡ pull_count self.old bytes from (length into.old))) }
        ensures copied { IfOk result (λ n. IfSome (get self.old.files name.now) (λ bytes.
            into.new ≡ take n (drop from bytes) ++ drop n into.old)) }
        ensures gave { IfOk result (λ n. self.new ≡ after_pull self.old n) }
    {
        self.pulls = self.pulls.saturating_add(1);
        if self.failing.contains(&self.pulls) {
            self.faults = self.faults.saturating_add(1);
            return Err(StoreFailed);
        }
        let Some(bytes) = self.files.get(name) else {
            self.faults = self.faults.saturating_add(1);
            return Err(StoreFailed);
        };
        let count = copy_from(bytes, from, self.bound, into);
        self.given = self.given.saturating_add(count as u64);
        Ok(count)
    }
}
