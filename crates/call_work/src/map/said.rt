//! What the command says.

ghost use Rattle.std.specs.Prelude.{◌≡◌, ◌≤◌, Err, Ok, IfOk};
ghost use Rattle.std.specs.Option.{option_copied};
ghost use Rattle.base_markup.specs.svg.Content.{IsContent};
ghost use Rattle.judge_margins.specs.map.Axes.{AreAxes, CanMoveBoth};
ghost use Rattle.judge_map.specs.Cells.{AreSettledCells};
ghost use Rattle.draw_map.specs.Maps.{IsSmallSecond};
ghost use Rattle.draw_shapes.specs.{Drawings.drawing_of, Scale.IsGrid, Svg.svg_of};
ghost use Rattle.file_study.specs.times.Parts.{names_of as names_for};
ghost use Rattle.call_answer.specs.Answers.{Says};
ghost use Rattle.call_work.specs.map.Answers.{IsDrawingText, IsTextOver, map_answer, second_names as second_for};
ghost use Rattle.call_work.specs.map.Mapped.{IsMapped};
ghost use Rattle.call_work.specs.map.Asked.{Both as BothOf, asked_of};
ghost use Rattle.call_work.specs.declared.map.denial.MapDenial.{MapDenial as DenialOf};
ghost use Rattle.base_memory.specs.declared.stopped.Stopped.TheVariants.{Fault};

use crate::map::axes::axes_of;
use crate::map::denial::MapDenial;
use base_memory::Stopped;
use call_answer::{Said, Study};
use call_ask::{MapAsk, MapForm};
use draw_map::{Map, grid_of};
use draw_shapes::{Grid, draw, svg};
use file_study::times::names_of;
use judge_map::{SettledCell, map_text, settled_cells};
use judge_margins::map::{Axes, cells};
use model_line::Memory;
use std::alloc::Global;

/// Where each obligation is held, fails or is open, as the settings of the words move: as a drawing,
/// or as records `x,y,cell,lost,fails,choices`. Status 0.
pub fn map_of(alloc: Global, study: &Study, ask: &MapAsk) -> Result<Said, Stopped<MapDenial>>
    requires { IsMapped study.now }
    ensures said { IfOk result (λ said. (both : BothOf)
        × (asked_of study.now.line ask.now.x.now (option_copied ask.now.y) ≡ Ok both)
        × Says (map_answer study.now.line study.now.scripts.items ask.now.form ask.now.x.now
        (option_copied ask.now.y) ask.now.made.now both) said) }
    ensures denied { (why : DenialOf) → result ≡ Err (Fault why) →
        asked_of study.now.line ask.now.x.now (option_copied ask.now.y) ≡ Err why }
{
    let axes = axes_of(alloc, &study.line, ask.x, ask.y)?;
    let text = text_of(alloc, study, ask, &axes)?;
    Ok(Said::good(text))
}

// The text in the form that is asked for.
fn text_of(alloc: Global, study: &Study, ask: &MapAsk, axes: &Axes) -> Result<Vec<u8>, Memory>
    requires study { IsMapped study.now }
    requires axes { AreAxes study.now.line axes.now }
    requires can { CanMoveBoth study.now.line axes.now }
    requires small { axes.now.x.step ≤ 4000 }
    requires second { IsSmallSecond axes.now.y }
    ensures { IfOk result (λ text.
        IsTextOver study.now.line study.now.scripts.items ask.now.form ask.now.x.now
        (option_copied ask.now.y) ask.now.made.now axes.now text.items) }
{
    let scripts = study.scripts.as_slice();
    let ruled = cells(alloc, &study.compiled(), scripts, axes)?;
    let cells = settled_cells(alloc, &study.line, scripts, axes, &ruled, ask.analyses)?;
    match ask.form {
        MapForm::Drawing => drawing_text(alloc, study, ask, axes, cells.as_slice()),
        MapForm::Records => map_text(alloc, &study.line, scripts, axes, cells.as_slice()),
    }
}

// The drawing of these cells: well-formed SVG.
fn drawing_text(
    alloc: Global,
    study: &Study,
    ask: &MapAsk,
    axes: &Axes,
    cells: &[SettledCell],
) -> Result<Vec<u8>, Memory>
    requires study { IsMapped study.now }
    requires axes { AreAxes study.now.line axes.now }
    requires small { axes.now.x.step ≤ 4000 }
    requires second { IsSmallSecond axes.now.y }
    requires cells { AreSettledCells study.now.line study.now.scripts.items axes.now cells.now }
    ensures well_formed { IfOk result (λ text. ∥ IsContent text.items ∥₁) }
    ensures drawn { IfOk result (λ text.
        IsDrawingText study.now.line study.now.scripts.items axes.now (names_for ask.now.x.now)
        (second_for (option_copied ask.now.y)) ask.now.made.now text.items) }
{
    let map = Map {
        line: &study.line,
        scripts: study.scripts.as_slice(),
        axes,
        cells,
        x: names_of(ask.x),
        y: second_names(ask.y),
    };
    let grid = grid_of(alloc, &map)?;
    grid_text(alloc, &grid, ask.made)
}

// The drawing of this grid, made by what these words say.
fn grid_text(alloc: Global, grid: &Grid, made: &[u8]) -> Result<Vec<u8>, Memory>
    requires { IsGrid grid.now }
    ensures well_formed { IfOk result (λ text. ∥ IsContent text.items ∥₁) }
    ensures drawn { IfOk result (λ text. text.items ≡ svg_of made.now (drawing_of grid.now)) }
{
    let drawn = draw(alloc, grid)?;
    let markup = svg(alloc, &drawn, made)?;
    Ok(markup.text)
}

fn second_names<'a>(words: Option<&'a [u8]>) -> &'a [u8]
    ensures { result.now ≡ second_for (option_copied words.entry) }
{
    match words {
        Some(words) => names_of(words),
        None => b"",
    }
}
