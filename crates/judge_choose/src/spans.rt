//! The intervals of covers, side by side.

ghost use Rattle.std.specs.Prelude.{◌≡◌, ◌≤◌, ◌<◌, ℕ, IfOk, Some, length, slice_get};
ghost use Rattle.model_line.specs.Parameters.{param_count};
ghost use Rattle.judge_choose.specs.Positions.{IsCover, box_of_cover, moves as moves_with};
ghost use Rattle.judge_choose.specs.Told.{AreCovers, AreCoverSpans, IsCoverSpan, cover_in};
ghost use Rattle.judge_choose.specs.declared.cover.Cover.{Cover as CoverOf};

use crate::cover::Cover;
use crate::known::laws_below;
use crate::setting::Setting;
use judge_verdict::boxes::Spans64;
use model_line::{Line, Memory};
use run_signal::{Tick, Ticks64};
use std::alloc::Global;

/// A span for each parameter: in each lane its interval in the lane's cover.
pub fn cover_spans(alloc: Global, line: &Line, covers: &[Cover]) -> Result<Vec<Spans64>, Memory>
    requires covers { AreCovers line.now covers.now }
    requires some { 0 < length covers.now }
    ensures { IfOk result (λ spans. AreCoverSpans line.now covers.now spans.items) }
{
    let mut spans = Vec::new(alloc);
    for param in 0..line.param_count() {
        spans.push(cover_span(line, covers, param))?;
    }
    Ok(spans)
}

// The interval of a parameter in each cover.
fn cover_span(line: &Line, covers: &[Cover], param: u32) -> Spans64
    requires covers { AreCovers line.now covers.now }
    requires some { 0 < length covers.now }
    requires param { param < param_count line.now }
    ensures { IsCoverSpan line.now covers.now param result }
{
    laws_below();
    let mut least = [Tick::new(0); 64];
    let mut greatest = [Tick::new(0); 64];
    for lane in 0..64 {
        let (low, high) = ends_covered(line, covers, cover_at(covers.len(), lane), param);
        least[lane] = Tick::new(low);
        greatest[lane] = Tick::new(high);
    }
    Spans64::new(Ticks64::new(least), Ticks64::new(greatest))
}

// The number of the cover in a lane. The lanes past the last cover repeat it.
fn cover_at(count: usize, lane: usize) -> usize
    requires { 0 < count }
    ensures number { result ≡ cover_in count lane }
    ensures exists { result < count }
{
    lane.min(count - 1)
}

// The interval of a parameter in a cover.
fn ends_covered(line: &Line, covers: &[Cover], j: usize, param: u32) -> (u32, u32)
    requires covers { AreCovers line.now covers.now }
    requires there { j < length covers.now }
    requires param { param < param_count line.now }
    ensures least { (cover : CoverOf) → slice_get covers.now j ≡ Some cover →
        result.0 ≡ ((box_of_cover line.now cover).ends param).least }
    ensures greatest { (cover : CoverOf) → slice_get covers.now j ≡ Some cover →
        result.1 ≡ ((box_of_cover line.now cover).ends param).greatest }
    ensures ordered { result.0 ≤ result.1 }
    ensures limit { result.1 ≤ 4000 }
{
    ends_of(line, cover_of(covers, j), param)
}

fn cover_of<'a>(covers: &[Cover<'a>], j: usize) -> Cover<'a>
    requires { j < length covers.now }
    ensures { slice_get covers.now j ≡ Some result }
{
    covers[j]
}

fn ends_of(line: &Line, cover: Cover, param: u32) -> (u32, u32)
    requires cover { IsCover line.now cover }
    requires param { param < param_count line.now }
    ensures least { result.0 ≡ ((box_of_cover line.now cover.entry).ends param).least }
    ensures greatest { result.1 ≡ ((box_of_cover line.now cover.entry).ends param).greatest }
    ensures ordered { result.0 ≤ result.1 }
    ensures limit { result.1 ≤ 4000 }
{
    laws_below();
    let (least, greatest) = (line.least(param), line.greatest(param));
    if moves(cover.setting, param) {
        (cover.first, cover.last + (greatest - least))
    } else {
        (least, greatest)
    }
}

// Whether the parameter moves with the setting.
fn moves(setting: &Setting, param: u32) -> bool
    ensures { result ≡ moves_with setting.now param }
{
    setting.params.iter().any(|p| *p == param)
}
