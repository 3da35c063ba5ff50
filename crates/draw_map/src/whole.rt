//! A map as a grid.

ghost use Rattle.std.specs.Prelude.{◌≡◌, ◌≤◌, ◌*◌, ◌++◌, IfOk, OnOk, length, option_map};
ghost use Rattle.judge_margins.specs.map.Axes.{IsAxis, IsSecond, rows_of};
ghost use Rattle.draw_shapes.specs.Scale.{IsGrid, IsRuler, IsSecondRuler, row_count};
ghost use Rattle.draw_map.specs.Beyond.{least_of};
ghost use Rattle.draw_map.specs.Grids.{IsGridOf, IsRulerOf, IsSecondOf, and_second, note_said};
ghost use Rattle.draw_map.specs.Grids.{title_said};
ghost use Rattle.draw_map.specs.Maps.{IsMap, IsSmallSecond};

use crate::beyond::beyond;
use crate::declared::least;
use crate::map::Map;
use crate::spots::spots;
use draw_shapes::{Grid, Ruler};
use itoa::Buffer;
use judge_margins::map::Axis;
use model_line::{Line, Memory, Script};
use std::alloc::Global;

/// A map as a grid, which can be drawn.
pub fn grid_of(alloc: Global, map: &Map) -> Result<Grid, Memory>
    requires { IsMap map.now }
    ensures is { IfOk result (IsGridOf map.now.line.now map.now.scripts.now map.now.axes.now
        map.now.cells.now map.now.x.now map.now.y.now) }
    ensures drawable { IfOk result IsGrid }
{
    let title = title(alloc, map)?;
    let note = note(alloc, map.line, map.scripts)?;
    let x = ruler(alloc, map.line, map.x, &map.axes.x)?;
    let y = second_ruler(alloc, map.line, map.y, &map.axes.y)?;
    let cells = spots(alloc, map)?;
    let declared = Vec::from_slice(alloc, b"as declared")?;
    let beyond = beyond(alloc, map)?;
    Ok(Grid {
        title,
        note,
        x,
        y,
        cells,
        declared,
        beyond,
    })
}

fn title(alloc: Global, map: &Map) -> Result<Vec<u8>, Memory>
    ensures { IfOk result (λ words.
        words.items ≡ title_said map.now.axes.now map.now.x.now map.now.y.now) }
{
    let mut words = Vec::from_slice(alloc, b"Where each obligation is held: ")?;
    words.extend_from_slice(map.x)?;
    push_second(&mut words, &map.axes.y, map.y)?;
    Ok(words)
}

fn push_second(words: &mut Vec<u8>, axis: &Option<Axis>, names: &[u8]) -> Result<(), Memory>
    ensures { OnOk result (words.new.items ≡ words.old.items ++ and_second axis.now names.now) }
{
    match axis {
        Some(_) => {
            words.extend_from_slice(b" and ")?;
            words.extend_from_slice(names)?;
            Ok(())
        }
        None => Ok(()),
    }
}

fn note(alloc: Global, line: &Line, scripts: &[Script]) -> Result<Vec<u8>, Memory>
    requires { length scripts.now ≤ 4096 }
    ensures { IfOk result (λ words. words.items ≡ note_said line.now scripts.now) }
{
    let count = scripts.len();
    let obligations = count * line.terminals.len();
    let mut words = Vec::from_slice(alloc, b"Scripts and obligations: ")?;
    words.extend_from_slice(Buffer::new().format(count).as_bytes())?;
    words.extend_from_slice(b" and ")?;
    words.extend_from_slice(Buffer::new().format(obligations).as_bytes())?;
    words.extend_from_slice(
        b". Intervals keep their widths, all else is as declared. Held: every choice meets each obligation; fails: some choice fails one.",
    )?;
    Ok(words)
}

fn second_ruler(
    alloc: Global,
    line: &Line,
    names: &[u8],
    axis: &Option<Axis>,
) -> Result<Option<Ruler>, Memory>
    requires axis { IsSecond line.now axis.now }
    requires small { IsSmallSecond axis.now }
    ensures is { IfOk result (IsSecondOf line.now names.now axis.now) }
    ensures drawable { IfOk result IsSecondRuler }
    ensures rows { IfOk result (λ ruler. row_count ruler ≡ rows_of axis.now) }
{
    match axis {
        Some(axis) => Ok(Some(ruler(alloc, line, names, axis)?)),
        None => Ok(None),
    }
}

fn ruler(alloc: Global, line: &Line, names: &[u8], axis: &Axis) -> Result<Ruler, Memory>
    requires axis { IsAxis line.now axis.now }
    requires small { axis.now.step ≤ 4000 }
    ensures is { IfOk result (IsRulerOf line.now names.now axis.now) }
    ensures drawable { IfOk result IsRuler }
{
    let tick_us = line.tick_us as u64;
    let mut words = Vec::from_slice(alloc, b"least end of ")?;
    words.extend_from_slice(names)?;
    words.extend_from_slice(b", ms")?;
    Ok(Ruler {
        words,
        first: axis.first as u64 * tick_us,
        step: axis.step as u64 * tick_us,
        count: axis.count(),
        declared: declared(line, axis),
    })
}

// The declared least end in microseconds.
fn declared(line: &Line, axis: &Axis) -> Option<u64>
    requires { IsAxis line.now axis.now }
    ensures { result
        ≡ option_map (λ least. least * line.now.tick_us) (least_of line.now axis.now.params.items) }
{
    match least(line, axis.params.as_slice()) {
        Some(least) => Some(least as u64 * line.tick_us as u64),
        None => None,
    }
}
