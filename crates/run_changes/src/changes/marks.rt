//! Which gates are to be looked at in a tick.

ghost use Rattle.std.specs.Prelude.{◌≡◌, ◌≢◌, ℕ, ◌<◌, ◌≤◌, ◌+◌, ◌-◌, ◌*◌, ◌⊎◌, List, IfOk, IsTrue, length};
ghost use Rattle.std.specs.Prelude.{slice_get, slice_set, Some};
ghost use Rattle.std.specs.Int.{bit_at};
ghost use Rattle.run_changes.specs.changes.Marks.{AreMarked, HasRoom, IsMarked, IsPlanned, MarksStay, PlansGrow};

use model_line::Memory;
use run_step::fresh_list;
use std::alloc::Global;

// How many ticks from the next one on have a row of the agenda.
const RING: u32 = 512;

/// A bit for each gate that is to be looked at, 64 to a word in the order of the net; a ring of rows
/// of such words, a row for each tick from the next one on, of those that are due at it; a bit for
/// each tick before the horizon at which some are; and the next tick to be taken.
#[derive(Drop)]
pub struct Marks {
    pub words: Vec<u64>,
    pub agenda: Vec<u64>,
    pub ticks: Vec<u64>,
    pub horizon: u32,
    pub next: u32,
}

/// Marks of so many gates, all of which are to be looked at at tick 0. All memory is taken here.
pub fn fresh_marks(alloc: Global, count: u32, horizon: u32) -> Result<Marks, Memory>
    requires few { count ≤ 512 }
    requires short { horizon ≤ 4000 }
    ensures horizon { IfOk result (λ marks. marks.horizon ≡ horizon) }
    ensures next { IfOk result (λ marks. marks.next ≡ 0) }
    ensures marks { IfOk result (λ marks. (dues : List ℕ) → length dues ≡ count →
        AreMarked dues marks) }
{
    let width = count / 64 + 1;
    let mut words = fresh_list(alloc, width, 0u64)?;
    let agenda = fresh_list(alloc, RING * width, 0u64)?;
    let ticks = fresh_list(alloc, horizon / 64 + 1, 0u64)?;
    for gate in 0..count {
        mark(&mut words, gate);
    }
    Ok(Marks {
        words,
        agenda,
        ticks,
        horizon,
        next: 0,
    })
}

/// Marks a gate.
pub fn mark(words: &mut Vec<u64>, gate: u32)
    requires { gate < 64 * length words.old.items }
    ensures count { length words.new.items ≡ length words.old.items }
    ensures marked { IsMarked gate words.new.items }
    ensures stay { MarksStay words.old.items words.new.items }
{
    words[(gate / 64) as usize] |= 1u64 << (gate % 64);
}

// Takes the mark off a gate.
fn unmark(words: &mut Vec<u64>, gate: u32)
    requires { gate < 64 * length words.old.items }
    ensures count { length words.new.items ≡ length words.old.items }
    ensures others { (i : ℕ) → i ≢ gate → IsMarked i words.old.items → IsMarked i words.new.items }
{
    words[(gate / 64) as usize] &= !(1u64 << (gate % 64));
}

/// Takes the mark off a gate that is due at this tick from now on.
pub fn settle(marks: &mut Marks, gate: u32, due: u32)
    requires wide { gate < 64 * length marks.old.words.items }
    requires room { HasRoom marks.old }
    requires later { marks.old.next ≤ due }
    ensures horizon { marks.new.horizon ≡ marks.old.horizon }
    ensures next { marks.new.next ≡ marks.old.next }
    ensures marks { (dues : List ℕ) → AreMarked dues marks.old →
        AreMarked (slice_set dues gate due) marks.new }
{
    unmark(&mut marks.words, gate);
    plan(marks, gate, due);
}

/// A gate is due at this tick too. Beyond the ring it is planned for the last tick of the ring, where
/// it is looked at once for nothing.
pub fn plan(marks: &mut Marks, gate: u32, due: u32)
    requires wide { gate < 64 * length marks.old.words.items }
    requires room { HasRoom marks.old }
    requires later { marks.old.next ≤ due }
    ensures planned { IsPlanned marks.new gate due }
    ensures more { PlansGrow marks.old marks.new }
{
    if due >= marks.horizon {
        return;
    }
    let tick = due.min(marks.next + (RING - 1));
    let width = marks.words.len() as u32;
    mark(&mut marks.agenda, 64 * (tick % RING * width) + gate);
    mark(&mut marks.ticks, tick);
}

/// The first gate with a mark from this one on; the end if there is none before it.
pub fn next_marked(words: &[u64], from: u32, end: u32) -> u32
    requires wide { end ≤ 64 * length words.now }
    requires few { end ≤ 4000 }
    requires inside { from ≤ end }
    ensures later { from ≤ result }
    ensures limited { result ≤ end }
    ensures passed { (i : ℕ) → from ≤ i → i < result → IsMarked i words.now → ⊥ }
{
    let mut gate = from;
    while gate < end {
        let word = words[(gate / 64) as usize];
        let bit = lowest_from(word, gate % 64);
        if bit < 64 {
            return (gate / 64 * 64 + bit).min(end);
        }
        gate = gate / 64 * 64 + 64;
    }
    end
}

// The lowest bit of a word from this one on; 64 if there is none.
fn lowest_from(word: u64, from: u32) -> u32
    requires { from < 64 }
    ensures later { from ≤ result }
    ensures limited { result ≤ 64 }
    ensures passed { (k : ℕ) → from ≤ k → k < result → bit_at word k ≡ 0 }
{
    let rest = word & (u64::MAX << from);
    if rest == 0 {
        return 64;
    }
    rest.trailing_zeros()
}

/// Marks the gates that are due at the tick, which is the next one, and clears its row.
pub fn wake_due(marks: &mut Marks, t: u32)
    requires tick { t < marks.old.horizon }
    requires room { HasRoom marks.old }
    requires reached { t ≡ marks.old.next }
    ensures horizon { marks.new.horizon ≡ marks.old.horizon }
    ensures next { marks.new.next ≡ t + 1 }
    ensures marks { (dues : List ℕ) → AreMarked dues marks.old → AreMarked dues marks.new }
{
    let width = marks.words.len();
    let row = (t % RING) as usize * width;
    for k in 0..width {
        let due = marks.agenda[row + k];
        marks.words[k] |= due;
        marks.agenda[row + k] = 0;
    }
    marks.next = t + 1;
}

/// For how many ticks from this one on no gate is due, up to the horizon; if one may be at the next
/// tick, 1.
pub fn quiet_ticks(marks: &mut Marks, t: u32) -> u32
    requires tick { t < marks.old.horizon }
    requires next { marks.old.next ≡ t + 1 }
    requires room { HasRoom marks.old }
    ensures horizon { marks.new.horizon ≡ marks.old.horizon }
    ensures some { 1 ≤ result }
    ensures fits { t + result ≤ marks.old.horizon }
    ensures reached { t + result ≡ marks.new.next }
    ensures marks { (dues : List ℕ) → AreMarked dues marks.old → AreMarked dues marks.new }
    ensures later { 1 < result → (dues : List ℕ) → AreMarked dues marks.old → (i due : ℕ) →
        slice_get dues i ≡ Some due → result ≤ due - t }
{
    let next = next_marked(&marks.ticks, t + 1, marks.horizon);
    if have_none(&marks.words) {
        marks.next = next;
        return next - t;
    }
    1
}

// Whether no gate has a mark.
fn have_none(words: &[u64]) -> bool
    ensures { IsTrue result → (i : ℕ) → IsMarked i words.now → ⊥ }
{
    for k in 0..words.len() {
        let word = words[k];
        if word != 0 {
            return false;
        }
    }
    true
}
