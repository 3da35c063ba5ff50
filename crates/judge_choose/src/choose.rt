//! The ranges of settings.

ghost use Rattle.std.specs.Prelude.{◌≡◌, ◌≤◌, ◌<◌, ◌+◌, IfOk, OnOk, Some, length, slice_get};
ghost use Rattle.std.specs.List.{All};
ghost use Rattle.model_line.specs.Fits.{Fits};
ghost use Rattle.judge_choose.specs.{Lanes.TellOf, Positions.IsCover, Positions.IsSetting};
ghost use Rattle.judge_choose.specs.Found.{AreFound, AreSettings};
ghost use Rattle.judge_choose.specs.Ranges.{AreRangesBelow, IsRange};

use crate::asks::asked;
use crate::cover::Cover;
use crate::found::found;
use crate::known::laws_below;
use crate::lanes::{are_kept, shown};
use crate::range::Range;
use crate::setting::Setting;
use crate::table::told;
use model_line::{Memory, Script};
use net_gates::Compiled;
use run_signal::Lanes64;
use std::alloc::Global;

/// A range for each setting. Whatever is held as declared is kept over it.
pub fn ranges(
    alloc: Global,
    compiled: &Compiled<'_>,
    scripts: &[Script],
    settings: &[Setting],
) -> Result<Vec<Range>, Memory>
    requires fit { All (Fits compiled.now.line.now) scripts.now }
    requires settings { AreSettings compiled.now.line.now settings.now }
    ensures { IfOk result (λ ranges. AreRangesBelow compiled.now.line.now scripts.now settings.now
        (length settings.now) ranges.items) }
{
    let mut ranges = Vec::new(alloc);
    'next_block: while ranges.len() < settings.len() {
        let candidates = found(alloc, compiled, scripts, settings, ranges.len())?;
        show(alloc, compiled, scripts, settings, &candidates, &mut ranges)?;
    }
    Ok(ranges)
}

// The ranges of up to 16 candidates more. One run of each script serves all of them.
fn show(
    alloc: Global,
    compiled: &Compiled<'_>,
    scripts: &[Script],
    settings: &[Setting],
    candidates: &[Cover],
    ranges: &mut Vec<Range>,
) -> Result<(), Memory>
    requires fit { All (Fits compiled.now.line.now) scripts.now }
    requires found { AreFound compiled.now.line.now settings.now (length ranges.old.items)
        candidates.now }
    requires so_far { AreRangesBelow compiled.now.line.now scripts.now settings.now
        (length ranges.old.items) ranges.old.items }
    ensures more { OnOk result (length ranges.old.items < length ranges.new.items) }
    ensures within { OnOk result (length ranges.new.items ≤ length settings.now) }
    ensures so_far { OnOk result (AreRangesBelow compiled.now.line.now scripts.now settings.now
        (length ranges.new.items) ranges.new.items) }
{
    laws_below();
    let _settings = settings;
    let first = ranges.len();
    let covers = asked(alloc, candidates)?;
    let bits = told(alloc, compiled, scripts, &covers)?;
    for i in 0..candidates.len() {
        let candidate = candidate_at(candidates, i);
        let range = range_of(alloc, compiled, scripts, candidate, &bits, 4 * i as u32)?;
        ranges.push(range)?;
    }
    Ok(())
}

fn candidate_at<'a, 'b>(candidates: &'b [Cover<'a>], i: usize) -> &'b Cover<'a>
    requires { i < length candidates.now }
    ensures { slice_get candidates.now i ≡ Some result.now }
{
    &candidates[i]
}

// The range of a candidate, or of the declared position where the candidate gives up what is held
// as declared.
fn range_of(
    alloc: Global,
    compiled: &Compiled<'_>,
    scripts: &[Script],
    candidate: &Cover,
    bits: &[Lanes64],
    lane: u32,
) -> Result<Range, Memory>
    requires fit { All (Fits compiled.now.line.now) scripts.now }
    requires cover { IsCover compiled.now.line.now candidate.now }
    requires lane { lane + 3 < 64 }
    requires tell { TellOf compiled.now.line.now scripts.now candidate.now bits.now lane }
    ensures { IfOk result (λ range.
        IsRange compiled.now.line.now scripts.now candidate.now.setting.now range) }
{
    laws_below();
    let range = shown(alloc, candidate, bits, lane)?;
    if are_kept(&range.kept, bits, lane + 3) {
        return Ok(range);
    }
    declared_range(alloc, compiled, scripts, candidate.setting)
}

// The range of the declared position alone.
fn declared_range(
    alloc: Global,
    compiled: &Compiled<'_>,
    scripts: &[Script],
    setting: &Setting,
) -> Result<Range, Memory>
    requires fit { All (Fits compiled.now.line.now) scripts.now }
    requires setting { IsSetting compiled.now.line.now setting.now }
    ensures { IfOk result (λ range.
        IsRange compiled.now.line.now scripts.now setting.now range) }
{
    laws_below();
    let candidates = [declared_cover(setting)];
    let covers = asked(alloc, &candidates)?;
    let bits = told(alloc, compiled, scripts, &covers)?;
    let range = shown(alloc, &candidates[0], &bits, 0)?;
    Ok(range)
}

/// The declared position of a setting.
pub fn declared_cover(setting: &Setting) -> Cover<'_>
    ensures setting { result.setting.now ≡ setting.now }
    ensures first { result.first ≡ setting.now.declared }
    ensures last { result.last ≡ setting.now.declared }
{
    Cover {
        setting,
        first: setting.declared,
        last: setting.declared,
    }
}
