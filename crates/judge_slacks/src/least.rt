//! The least move of an end inward with which an obligation is held.

ghost use Rattle.std.specs.Prelude.{◌≡◌, ◌≤◌, ◌<◌, ◌+◌, IfOk};
ghost use Rattle.judge_slacks.specs.Asked.{IsAsked, IsCloser, IsGap, IsHeldBy, TellsCloser};
ghost use Rattle.judge_slacks.specs.Needs.{IsNeed};

use crate::asked::{Asked, Gap};
use crate::inward::room_in;
use crate::known::laws_below;
use crate::moves::{held_moves, move_at};
use model_line::Memory;
use run_signal::Signal;
use std::alloc::Global;

/// The least number of ticks by which the end has to be moved inward so that the obligation is held;
/// none where no move holds it.
pub fn least_move(alloc: Global, of: &Asked<'_>) -> Result<Option<u32>, Memory>
    requires { IsAsked of.now }
    ensures { IfOk result (λ need. IsNeed of.now.compiled.line.now of.now.script.now
        of.now.terminal of.now.param of.now.side need) }
{
    laws_below();
    let far = room_in(of.compiled.line, of.param, of.side);
    if far == 0 {
        return Ok(None);
    }
    match closer(alloc, of, Gap { near: 0, far })? {
        Some(coarse) => least_in(alloc, of, coarse),
        None => Ok(None),
    }
}

// The least move in a gap at whose far end the obligation is held.
fn least_in(alloc: Global, of: &Asked<'_>, coarse: Gap) -> Result<Option<u32>, Memory>
    requires asked { IsAsked of.now }
    requires gap { IsGap of.now coarse }
    requires held { IsHeldBy of.now coarse.far }
    requires narrow { coarse.far ≤ coarse.near + 63 }
    ensures { IfOk result (λ need. IsNeed of.now.compiled.line.now of.now.script.now
        of.now.terminal of.now.param of.now.side need) }
{
    laws_below();
    match closer(alloc, of, coarse)? {
        Some(fine) => Ok(Some(fine.far)),
        None => Ok(None),
    }
}

// The first of 64 moves with which the obligation is held, and the one before.
fn closer(alloc: Global, of: &Asked<'_>, gap: Gap) -> Result<Option<Gap>, Memory>
    requires asked { IsAsked of.now }
    requires gap { IsGap of.now gap }
    ensures { IfOk result (λ closer. TellsCloser of.now gap closer) }
{
    laws_below();
    let bits = held_moves(alloc, of, gap)?;
    let mut near = gap.near;
    for lane in 0..64 {
        let far = move_at(gap, lane + 1);
        if bits.must(lane) {
            return Ok(Some(Gap { near, far }));
        }
        near = far;
    }
    Ok(None)
}
