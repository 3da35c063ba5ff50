//! The values of a signal, tick by tick, and the ticks at which they change.
#![tactic(auto)]

ghost use Rattle.std.specs.Prelude.{◌≡◌, ℕ, ◌<◌, ◌≤◌, ◌+◌, [], ◌++◌, length, IfOk, Some};
ghost use Rattle.std.specs.Prelude.{slice_get, replicate, vec_capacity, IsTrue};
ghost use Rattle.model_history.specs.Rails.{rails_at, rails_delayed};
ghost use Rattle.run_signal.specs.Lanes.{in_lane};
ghost use Rattle.run_signal.specs.SentKeys.{SentKeys};
ghost use Rattle.run_signal.specs.Tracks.{IsNextAfter, StaysUntil, AreAscending};
ghost use Rattle.run_signal.specs.Tracks.{IsSteadySince};

use crate::{Carried, Signal};
use base_memory::Memory;
use model_history::delay_laws::delays_are_their_facts;
use std::alloc::Global;
use std::marker::Model;

// How many ticks are looked at one by one.
const FEW: u32 = 8;

/// The values of a key or a trip from tick 0 on, with room up to a horizon. Contracts see both. To
/// go on with the same value costs nothing: the ticks since a change are written at the next one.
#[derive(Drop)]
pub struct Track<V: Signal> {
    // Those before the last change, and the one from it on.
    values: Vec<V>,
    last: V,
    // How many ticks there are.
    len: u32,
    // The ticks at which the value may differ from the one before, in order.
    changes: Vec<u32>,
    horizon: u32,
}

impl<V: Signal> Model for Track<V> {
    ghost use Rattle.std.specs.Prelude.{vec_capacity};
    ghost use Rattle.run_signal.specs.{SentKeys.SentKeys, Tracks.IsHeldTrack, Tracks.all_values};

    ghost Value = { SentKeys V };

    ghost view = { λ a. record {
      keys = all_values a.values.items a.last a.len;
      horizon = a.horizon;
    } };

    ghost invariant = { λ a. IsHeldTrack V.signal a.values.items a.last a.len
        (vec_capacity a.values) a.changes.items (vec_capacity a.changes) a.horizon };
}

impl<V: Signal> Track<V> {
    /// A track with no values. All its memory is taken here.
    pub fn new(alloc: Global, horizon: u32) -> Result<Self, Memory>
        requires { horizon ≤ 4000 }
        ensures { IfOk result (λ track. track ≡ record { keys = []; horizon = horizon }) }
    {
        let values = Vec::with_capacity(alloc, horizon as usize)?;
        let changes = Vec::with_capacity(alloc, horizon as usize)?;
        Ok(Track {
            values,
            last: V::known(false),
            len: 0,
            changes,
            horizon,
        })
    }

    /// How many ticks there are.
    pub fn len(&self) -> u32
        ensures length { result ≡ length self.now.keys }
        ensures limited { length self.now.keys ≤ 4000 }
    {
        self.len
    }

    /// The value at a tick.
    pub fn at(&self, t: u32) -> V
        requires { t < length self.now.keys }
        ensures { slice_get self.now.keys t ≡ Some result }
    {
        let t = t as usize;
        if t < self.values.len() {
            return self.values[t];
        }
        self.last
    }

    /// Appends so many ticks with this value, or with one that is the same in each lane.
    pub fn push(&mut self, value: V, count: u32)
        requires some { 1 ≤ count }
        requires room { length self.old.keys + count ≤ self.old.horizon }
        ensures keys { (lane : ℕ) → lane < V.signal.lanes →
            in_lane V.signal.rails lane self.new.keys
            ≡ in_lane V.signal.rails lane self.old.keys ++ replicate count (V.signal.rails value
            lane) }
        ensures length { length self.new.keys ≡ length self.old.keys + count }
        ensures horizon { self.new.horizon ≡ self.old.horizon }
    {
        if goes_on::<V>(self.len, self.last, value) {
            self.len += count;
            return;
        }
        let more = self.len - self.values.len() as u32;
        fill_within(&mut self.values, self.last, more);
        self.changes.push_reserved(self.len);
        self.last = value;
        self.len += count;
    }

    /// Until when the values are those of this tick: the next change, or where the track ends. It
    /// looks at the next few ticks, and if none of them brings another value, at as many changes as
    /// their number has binary digits.
    pub fn stays_until(&self, t: u32) -> u32
        requires { t < length self.now.keys }
        ensures later { t < result }
        ensures limited { result ≤ length self.now.keys }
        ensures stays { (lane : ℕ) → lane < V.signal.lanes →
            StaysUntil (rails_at (in_lane V.signal.rails lane self.now.keys)) t
            (length self.now.keys) result }
    {
        if t as usize >= self.values.len() {
            return self.len;
        }
        let soon = same_until(&self.values, t);
        if soon < t + FEW {
            return soon;
        }
        next_after(&self.changes, t, self.len)
    }
}

impl<V: Carried> Track<V> {
    /// What is received at the next tick of a key, through a delay within the span.
    pub fn received(&self, delay: &V::Span) -> V
        requires later { (lane : ℕ) → lane < V.signal.lanes →
            1 ≤ (V.signal.ends delay.now lane).least }
        requires room { length self.now.keys < 4000 }
        ensures { (lane : ℕ) → lane < V.signal.lanes →
            V.signal.rails result lane
            ≡ rails_delayed (rails_at (in_lane V.signal.rails lane self.now.keys))
            (V.signal.ends delay.now lane) (length self.now.keys) }
    {
        delays_are_their_facts();
        if self.is_steady(delay) {
            return self.at(self.len() - 1);
        }
        V::arrive(self, delay)
    }

    // Whether there is one lane, and the key is the same since the greatest delay before the next
    // tick.
    fn is_steady(&self, delay: &V::Span) -> bool
        requires { (lane : ℕ) → lane < V.signal.lanes → 1 ≤ (V.signal.ends delay.now lane).least }
        ensures some { IsTrue result → 1 ≤ length self.now.keys }
        ensures since { IsTrue result → (lane : ℕ) → lane < V.signal.lanes →
            IsSteadySince (rails_at (in_lane V.signal.rails lane self.now.keys))
            (V.signal.ends delay.now lane) (length self.now.keys) }
    {
        let lanes = V::LANES;
        if lanes != 1 {
            return false;
        }
        let greatest = V::greatest(delay, 0);
        let t = self.len;
        if t < greatest {
            return false;
        }
        last_change(&self.changes) <= t - greatest
    }
}

// Whether there are ticks before, and the last of them has this value in each lane.
fn goes_on<V: Signal>(len: u32, last: V, value: V) -> bool
    ensures some { IsTrue result → 1 ≤ len }
    ensures same { IsTrue result → (lane : ℕ) → lane < V.signal.lanes →
        V.signal.rails last lane ≡ V.signal.rails value lane }
{
    len > 0 && last.same(value)
}

// Until when the values are those of this tick, as far as the next few ticks tell.
fn same_until<V: Signal>(values: &[V], t: u32) -> u32
    requires inside { t < length values.now }
    requires short { length values.now ≤ 4000 }
    ensures later { t < result }
    ensures limited { result ≤ length values.now }
    ensures stays { (lane : ℕ) → lane < V.signal.lanes →
        StaysUntil (rails_at (in_lane V.signal.rails lane values.now)) t (length values.now) result }
{
    let value = values[t as usize];
    let last = (t + FEW).min(values.len() as u32);
    let mut end = t + 1;
    while end < last {
        if !values[end as usize].same(value) {
            return end;
        }
        end += 1;
    }
    end
}

// Appends a value so many times to a list with room for them.
fn fill_within<V: Copy>(list: &mut Vec<V>, value: V, count: u32)
    requires { length list.old.items + count ≤ vec_capacity list.old }
    ensures items { list.new.items ≡ list.old.items ++ replicate count value }
    ensures room { vec_capacity list.old ≤ vec_capacity list.new }
{
    let len = list.len() + count as usize;
    list.resize(len, value).unwrap();
}

// The last of the changes, or 0 where there is none.
fn last_change(changes: &[u32]) -> u32
    requires { AreAscending changes.now }
    ensures { (i c : ℕ) → slice_get changes.now i ≡ Some c → c ≤ result }
{
    let count = changes.len();
    if count == 0 {
        return 0;
    }
    changes[count - 1]
}

// The first of the changes after t, or the bound where there is none.
fn next_after(changes: &[u32], t: u32, bound: u32) -> u32
    requires later { t < bound }
    requires ascending { AreAscending changes.now }
    requires inside { (i c : ℕ) → slice_get changes.now i ≡ Some c → c < bound }
    ensures { IsNextAfter changes.now t bound result }
{
    let i = changes.partition_point(|change| *change <= t);
    if i < changes.len() { changes[i] } else { bound }
}
