//! What is asked about candidates.

ghost use Rattle.std.specs.Prelude.{◌≡◌, ◌≤◌, ◌<◌, ◌*◌, ◌/◌, ◌%◌, IfOk, Some, length, slice_get};
ghost use Rattle.judge_choose.specs.Asked.{AreAsked, IsAsked, asked_position};
ghost use Rattle.judge_choose.specs.declared.cover.Cover.{Cover as CoverOf};

use crate::cover::Cover;
use model_line::Memory;
use std::alloc::Global;

/// Of each candidate four covers: itself, the position one tick below it, the one above it, and the
/// declared one.
pub fn asked<'a>(alloc: Global, candidates: &[Cover<'a>]) -> Result<Vec<Cover<'a>>, Memory>
    requires { length candidates.now ≤ 16 }
    ensures { IfOk result (λ asked. AreAsked candidates.now asked.items) }
{
    let mut asked = Vec::new(alloc);
    for lane in 0..4 * candidates.len() {
        asked.push(asked_in(candidates, lane))?;
    }
    Ok(asked)
}

fn asked_in<'a>(candidates: &[Cover<'a>], lane: usize) -> Cover<'a>
    requires { lane < 4 * length candidates.now }
    ensures { (candidate : CoverOf) → slice_get candidates.now (lane / 4) ≡ Some candidate →
        IsAsked candidate (lane % 4) result }
{
    let candidate = &candidates[lane / 4];
    let role = lane % 4;
    if role == 0 {
        return *candidate;
    }
    let at = position_in(candidate, role);
    Cover {
        setting: candidate.setting,
        first: at,
        last: at,
    }
}

fn position_in(candidate: &Cover, role: usize) -> u32
    ensures { result ≡ asked_position candidate.now role }
{
    if role == 1 {
        candidate.first.saturating_sub(1)
    } else if role == 2 {
        candidate.last.saturating_add(1).min(candidate.setting.last)
    } else {
        candidate.setting.declared
    }
}
