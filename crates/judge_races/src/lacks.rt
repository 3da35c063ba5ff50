//! What an operand lacks.

ghost use Rattle.std.specs.Prelude.{◌≡◌, ◌≤◌, ◌<◌, ◌+◌, ℕ, Bool, IfOk, length};
ghost use Rattle.judge_races.specs.Stretches.{AreOffs};
ghost use Rattle.judge_races.specs.Lacks.{IsColumn, LastBelow, Lacks};

use model_line::Memory;
use std::alloc::Global;

/// What a signal lacks at each tick, which has to last for so long: how much longer it would have to
/// last. The signal is told by the first tick from each on at which it is off.
pub fn column(alloc: Global, offs: &[u32], pickup: u32) -> Result<Vec<Option<u32>>, Memory>
    requires { length offs.now ≤ 4000 }
    ensures { IfOk result (λ column. (u : ℕ → Bool) → AreOffs u (length offs.now) offs.now →
        IsColumn u pickup (length offs.now) column.items) }
{
    let mut column = Vec::with_capacity(alloc, offs.len())?;
    let mut last = None;
    for t in 0..offs.len() {
        last = last_at(offs, pickup, t as u32, last);
        column.push(lack(t as u32, last))?;
    }
    Ok(column)
}

// The last tick up to t that the signal lasted to, by that below t.
fn last_at(offs: &[u32], pickup: u32, t: u32, last: Option<u32>) -> Option<u32>
    requires within { t < length offs.now }
    requires short { length offs.now ≤ 4000 }
    ensures { (u : ℕ → Bool) → AreOffs u (length offs.now) offs.now → LastBelow u pickup t last →
        LastBelow u pickup (t + 1) result }
{
    if t < pickup {
        return last;
    }
    let from = t - pickup;
    let off = offs[from as usize];
    if off > from {
        Some(t.min(off - 1))
    } else {
        last
    }
}

// How long ago that was.
fn lack(t: u32, last: Option<u32>) -> Option<u32>
    ensures { (u : ℕ → Bool) (p : ℕ) → LastBelow u p (t + 1) last → Lacks u p t result }
{
    match last {
        Some(b) => Some(t.saturating_sub(b)),
        None => None,
    }
}
