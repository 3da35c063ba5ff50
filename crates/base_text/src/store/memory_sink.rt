//! A sink in memory.
ghost use Rattle.std.specs.Prelude.{◌≡◌, ◌<◌, ◌≤◌, ◌↔◌, [], ◌∷◌, ◌++◌, Some, length, take, IfOk};
ghost use Rattle.std.specs.Prelude.{OnOk, OnErr, IsErr};
ghost use Rattle.std.specs.Io.KnownBytes.{WriteAppends};
ghost use Rattle.std.specs.Option.{ForSome};
ghost use Rattle.base_text.specs.store.Counts.{Rose, one_more};
ghost use Rattle.base_text.specs.store.MemorySink.{SinkState, empty_sink, PushFails, TakesNone};
ghost use Rattle.base_text.specs.store.MemorySink.{push_count, after_push, after_fault};

use crate::store::bound::at_most;
use crate::store::sink::{Sink, SinkFailed};
use base_memory::Memory;
use std::alloc::Global;
use std::marker::Model;

/// A sink that keeps what it took, and fails at the pushes that it is told to fail at.
#[derive(Drop)]
pub struct MemorySink {
    written: Vec<u8>,
    room: usize,
    failing: Vec<u64>,
    taking_none: Vec<u64>,
    bound: Option<u32>,
    pushes: u64,
    faults: u64,
}

impl Model for MemorySink {
    ghost Value = { SinkState };

    ghost view = { λ s. record {
      written = s.written.items;
      room = s.room;
      failing = s.failing.items;
      taking_none = s.taking_none.items;
      bound = s.bound;
      pushes = s.pushes;
      faults = s.faults;
    } };

    ghost invariant = { λ s. (s.room ≤ s.written.cap)
        × (length s.written.items ≤ s.room)
        × ForSome s.bound (λ most. 1 ≤ most) };
}

impl MemorySink {
    /// A sink with memory for so many bytes.
    pub fn new(alloc: Global, room: u32) -> Result<Self, Memory>
        ensures { IfOk result (λ s. s ≡ empty_sink room) }
    {
        Ok(MemorySink {
            written: Vec::with_capacity(alloc, room as usize)?,
            room: room as usize,
            failing: Vec::new(alloc),
            taking_none: Vec::new(alloc),
            bound: None,
            pushes: 0,
            faults: 0,
        })
    }

    /// The bytes that it took.
    pub fn written(&self) -> &[u8]
        ensures { result.now ≡ self.now.written }
    {
        &self.written
    }

    /// Lets the push of that number fail, the first being 1.
    pub fn fail_at(&mut self, push: u64) -> Result<(), Memory>
        ensures ok { OnOk result (self.new
            ≡ record self.old { failing = self.old.failing ++ push ∷ [] }) }
        ensures err { OnErr result (self.new ≡ self.old) }
    {
        self.failing.push(push)?;
        Ok(())
    }

    /// Lets the push of that number take nothing without an error, the first being 1.
    pub fn take_none_at(&mut self, push: u64) -> Result<(), Memory>
        ensures ok { OnOk result (self.new
            ≡ record self.old { taking_none = self.old.taking_none ++ push ∷ [] }) }
        ensures err { OnErr result (self.new ≡ self.old) }
    {
        self.taking_none.push(push)?;
        Ok(())
    }

    /// Bounds each later push to so many bytes.
    pub fn take_at_most(&mut self, size: u32)
        requires { 1 ≤ size }
        ensures { self.new ≡ record self.old { bound = Some size } }
    {
        self.bound = Some(size);
    }
}

impl Sink for MemorySink {
    ghost written = { λ s. Some s.written };

    ghost faults = { λ s. s.faults };

    ghost pushes = { λ s. s.pushes };

    fn push(&mut self, piece: &[u8]) -> Result<usize, SinkFailed>
        requires { 0 < length piece.now }
        ensures bound { IfOk result (λ n. n ≤ length piece.now) }
        ensures bytes { WriteAppends (Some self.old.written) (Some self.new.written)
            result piece.now }
        ensures later { self.old.faults ≤ self.new.faults }
        ensures failed { OnErr result (Rose self.old.faults self.new.faults) }
        ensures took_none { IfOk result (λ n. n ≡ 0 → Rose self.old.faults self.new.faults) }
        ensures took { IfOk result (λ n. 0 < n → self.new.faults ≡ self.old.faults) }
        ensures pushed { self.old.pushes ≤ self.new.pushes }
        ensures pushes { self.new.pushes ≡ one_more self.old.pushes }

        // It fails exactly where it is told to or has no room, and else takes nothing exactly where
        // it is told to.
        ensures exact { IsErr result ↔ PushFails self.old }
        ensures none { IfOk result (λ n. (n ≡ 0) ↔ TakesNone self.old) }
        ensures fault { OnErr result (self.new ≡ after_fault self.old) }
        ensures none_fault { IfOk result (λ n. n ≡ 0 → self.new ≡ after_fault self.old) }

        // Every other push takes what there is room for and the bound allows.
        ensures count { IfOk result (λ n. 0 < n → n ≡ push_count self.old (length piece.now)) }
        ensures grew { IfOk result (λ n.
            0 < n → self.new ≡ after_push self.old (take n piece.now)) }
    {
        self.pushes = self.pushes.saturating_add(1);
        let room = self.room - self.written.len();
        if room == 0 || self.failing.contains(&self.pushes) {
            self.faults = self.faults.saturating_add(1);
            return Err(SinkFailed);
        }
        if self.taking_none.contains(&self.pushes) {
            self.faults = self.faults.saturating_add(1);
            return Ok(0);
        }
        let count = at_most(self.bound, piece.len().min(room));
        self.written.extend_from_slice(&piece[..count]).unwrap();
        Ok(count)
    }
}
