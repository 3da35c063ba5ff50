//! The times of a fault that are not known, and its borders.

ghost use Rattle.std.specs.Prelude.{◌≡◌, IfOk, IsTrue, map};
ghost use Rattle.std.specs.List.{list_all};
ghost use Rattle.file_study.specs.study.Faults.{stage_values};
ghost use Rattle.file_borders.specs.Drawn.{AreBorders, IsBorder, part_of as part_in};
ghost use Rattle.file_borders.specs.Loose.{has_one_time};

use crate::drawn::At;
use file_study::study::Stage;
use model_borders::Border;
use model_line::Memory;
use run_signal::Within;
use std::alloc::Global;

/// An interval for each stage that lasts for one, in their order.
pub(crate) fn part_of(alloc: Global, stages: &[Stage]) -> Result<Vec<Within>, Memory>
    requires { IsTrue (list_all has_one_time (map stage_values stages.now)) }
    ensures { IfOk result (λ part. part.items ≡ part_in (map stage_values stages.now)) }
{
    let mut part = Vec::new(alloc);
    for stage in stages {
        if stage.between {
            part.push(Within::new(stage.lasts[0], stage.lasts[1]))?;
        }
    }
    Ok(part)
}

/// Borders that stand there.
pub(crate) fn borders_at(alloc: Global, ats: &[At]) -> Result<Vec<Border>, Memory>
    ensures { IfOk result (λ borders. AreBorders ats.now borders.items) }
{
    let mut borders = Vec::new(alloc);
    for i in 0..ats.len() {
        let border = border_at(alloc, ats[i])?;
        borders.push(border)?;
    }
    Ok(borders)
}

// A border that stands there.
fn border_at(alloc: Global, at: At) -> Result<Border, Memory>
    ensures { IfOk result (IsBorder at) }
{
    let times = vec![in alloc; 1u8; at.lengths as usize]?;
    Ok(Border {
        fixed: at.ticks,
        times,
    })
}
