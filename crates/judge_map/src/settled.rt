//! The settled cells of a map.

ghost use Rattle.std.specs.Prelude.{◌≡◌, ◌<◌, ◌↔◌, IfOk, IsTrue};
ghost use Rattle.std.specs.List.{All};
ghost use Rattle.model_line.specs.{Fits.Fits};
ghost use Rattle.model_settle.specs.Schemes.{IsOneRailedBy};
ghost use Rattle.judge_margins.specs.map.Axes.{AreAxes, CanMoveBoth};
ghost use Rattle.judge_margins.specs.map.Cells.{AreCells, IsCell};
ghost use Rattle.judge_map.specs.Asked.{IsAsked, box_of};
ghost use Rattle.judge_map.specs.Cells.{AreSettledCells, IsSettledCell};

use crate::asked::Asked;
use crate::cell::SettledCell;
use crate::placing::line_of_cell;
use crate::rules::known_of_rules;
use crate::search::{known_by_search, some_fails, some_open};
use judge_margins::map::{Axes, Cell};
use judge_settle::corner::is_one_railed;
use model_line::{Line, Memory, Script};
use std::alloc::Global;

/// What is known of each obligation over each of these cells. Where each trip of the line is one-railed
/// the rules decide; else a cell that they leave open is searched, of each obligation so many analyses
/// at most, until some obligation fails.
pub fn settled_cells(
    alloc: Global,
    line: &Line,
    scripts: &[Script],
    axes: &Axes,
    cells: &[Cell],
    analyses: u32,
) -> Result<Vec<SettledCell>, Memory>
    requires fit { All (Fits line.now) scripts.now }
    requires axes { AreAxes line.now axes.now }
    requires can { CanMoveBoth line.now axes.now }
    requires cells { AreCells line.now scripts.now axes.now cells.now }
    ensures { IfOk result (λ settled.
        AreSettledCells line.now scripts.now axes.now settled.items) }
{
    let one_railed = is_one_railed(line);
    let mut settled = Vec::with_capacity(alloc, cells.len())?;
    for n in 0..cells.len() {
        let place = n as u32;
        let asked = Asked {
            line,
            scripts,
            axes,
            place,
        };
        settled.push(settled_cell(alloc, &asked, &cells[n], one_railed, analyses)?)?;
    }
    Ok(settled)
}

// What is known of each obligation over a cell.
fn settled_cell(
    alloc: Global,
    asked: &Asked<'_>,
    cell: &Cell,
    one_railed: bool,
    analyses: u32,
) -> Result<SettledCell, Memory>
    requires asked { IsAsked asked.now }
    requires cell { IsCell asked.now.line.now asked.now.scripts.now (box_of asked.now) cell.now }
    requires one_railed { IsTrue one_railed ↔ IsOneRailedBy asked.now.line.now.scheme asked.now.line.now }
    ensures { IfOk result (IsSettledCell asked.now.line.now asked.now.scripts.now (box_of asked.now)) }
{
    let ruled = known_of_rules(alloc, asked, cell, one_railed)?;
    if one_railed || some_fails(ruled.as_slice()) || !some_open(ruled.as_slice()) {
        return Ok(SettledCell { known: ruled });
    }
    match line_of_cell(alloc, asked)? {
        Some(other) => {
            let known = known_by_search(alloc, asked, &other, ruled.as_slice(), analyses)?;
            Ok(SettledCell { known })
        }
        None => Ok(SettledCell { known: ruled }),
    }
}
