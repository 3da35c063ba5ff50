//! Boxes that hold each candidate of each part.

ghost use Rattle.std.specs.Prelude.{◌≡◌, ◌<◌, ◌+◌, IfOk, length};
ghost use Rattle.model_line.specs.Parameters.{param_count};
ghost use Rattle.judge_split.specs.Quiet.{AreCorners, IsCorner, corner_number};

use crate::known::laws_below;
use crate::widest::widest;
use model_line::{Line, Memory};
use std::alloc::Global;

/// Whether each parameter is split: it is the widest of the box, or of one of the parts whose halves
/// are among them.
pub fn wide_in(alloc: Global, line: &Line, parts: &[Line]) -> Result<Vec<bool>, Memory>
    ensures { IfOk result (λ wide. length wide.items ≡ param_count line.now) }
{
    let mut wide = Vec::new(alloc);
    wide.resize(line.param_count() as usize, false)?;
    mark(&mut wide, line);
    let split = (parts.len() / 2).saturating_sub(1);
    for part in &parts[..split] {
        mark(&mut wide, part);
    }
    Ok(wide)
}

// The widest parameter of a part is marked, where it has one.
fn mark(wide: &mut [bool], part: &Line)
    ensures { length wide.new ≡ length wide.old }
{
    if let Some(param) = widest(part) {
        if let Some(marked) = wide.get_mut(param as usize) {
            *marked = true;
        }
    }
}

/// The corners of the box in the parameters that are not wide: all at the least number, or all at
/// the greatest, but for one, or for none.
pub fn corners(alloc: Global, line: &Line, wide: &[bool]) -> Result<Vec<Line>, Memory>
    requires { length wide.now ≡ param_count line.now }
    ensures { IfOk result (λ corners.
        AreCorners line.now wide.now (param_count line.now + 1) corners.items) }
{
    let mut corners = Vec::new(alloc);
    for but in 0..line.param_count() + 1 {
        let low = corner(alloc, line, wide, false, but)?;
        let high = corner(alloc, line, wide, true, but)?;
        corners.push(low)?;
        corners.push(high)?;
    }
    Ok(corners)
}

fn corner(alloc: Global, line: &Line, wide: &[bool], high: bool, but: u32) -> Result<Line, Memory>
    requires { length wide.now ≡ param_count line.now }
    ensures { IfOk result (λ corner. IsCorner line.now wide.now high but corner) }
{
    laws_below();
    let mut corner = line.copy(alloc)?;
    for param in 0..line.param_count() {
        if !wide[param as usize] {
            let number = number_in(line, high, but, param);
            corner.set_bounds(param, number, number);
        }
    }
    Ok(corner)
}

// A parameter's number in a corner.
fn number_in(line: &Line, high: bool, but: u32, param: u32) -> u32
    requires { param < param_count line.now }
    ensures { result ≡ corner_number line.now high but param }
{
    if param == but {
        if high {
            line.least(param)
        } else {
            line.greatest(param)
        }
    } else if high {
        line.greatest(param)
    } else {
        line.least(param)
    }
}
