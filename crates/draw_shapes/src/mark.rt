//! The mark of what is declared.

ghost use Rattle.std.specs.Prelude.{◌≡◌, ◌≤◌, ◌-◌, ◌*◌, ◌++◌, ◌∷◌, [], OnOk, IfSome};
ghost use Rattle.draw_shapes.specs.Seen.{figures_seen, rectangle};
ghost use Rattle.draw_shapes.specs.Scale.{IsGrid, IsRuler, IsScale, IsSecondRuler};
ghost use Rattle.draw_shapes.specs.Legend.{across as across_of, mark, shown_at as shown_for, target};
ghost use Rattle.draw_shapes.specs.Legend.{up_by as up_of};

use crate::class::Class;
use crate::figure::Figure;
use crate::grid::{Grid, Ruler};
use crate::pen::put_rectangle;
use crate::scale::{LEFT, Scale, along, last};
use std::alloc::AllocError;

/// Appends a target where the declared times lie, if both are among the cells.
pub fn put_mark(figures: &mut Vec<Figure>, scale: Scale, grid: &Grid) -> Result<(), AllocError>
    requires fits { IsScale scale }
    requires grid { IsGrid grid.now }
    ensures { OnOk result (figures_seen figures.new.items
        ≡ figures_seen figures.old.items ++ mark scale grid.now) }
{
    let Some(across) = across(scale, grid) else {
        return Ok(());
    };
    let Some(up) = up_by(scale, &grid.y) else {
        return Ok(());
    };
    put_target(figures, LEFT + across, scale.bottom().saturating_sub(up))
}

/// How far from the left end of the cells the declared time lies.
pub fn across(scale: Scale, grid: &Grid) -> Option<u32>
    requires fits { IsScale scale }
    requires grid { IsGrid grid.now }
    ensures is { result ≡ across_of scale grid.now }
    ensures limit { IfSome result (λ a. a ≤ 2000000) }
{
    shown_at(&grid.x, scale.width, grid.x.declared)
}

/// How far from the lower end of the cells the second declared time lies; without a second ruler
/// the middle of the row.
pub fn up_by(scale: Scale, ruler: &Option<Ruler>) -> Option<u32>
    requires fits { IsScale scale }
    requires ruler { IsSecondRuler ruler.now }
    ensures is { result ≡ up_of scale ruler.now }
    ensures limit { IfSome result (λ a. a ≤ 2000000) }
{
    match ruler {
        Some(ruler) => shown_at(ruler, scale.height, ruler.declared),
        None => Some(scale.height / 2),
    }
}

fn shown_at(ruler: &Ruler, long: u32, time: Option<u64>) -> Option<u32>
    requires ruler { IsRuler ruler.now }
    requires long { long ≤ 400 }
    ensures is { result ≡ shown_for ruler.now long time }
    ensures limit { IfSome result (λ a. a ≤ 2000000) }
{
    let Some(time) = time else {
        return None;
    };
    if ruler.first <= time && time <= last(ruler) {
        Some(along(ruler, long, time))
    } else {
        None
    }
}

/// Appends a target.
pub fn put_target(figures: &mut Vec<Figure>, x: u32, y: u32) -> Result<(), AllocError>
    ensures { OnOk result (figures_seen figures.new.items
        ≡ figures_seen figures.old.items ++ target x y) }
{
    put_square(figures, Class::Margin, x, y, 60)?;
    put_square(figures, Class::Paper, x, y, 40)?;
    put_square(figures, Class::Margin, x, y, 15)
}

// Appends a square by its middle and half its side.
fn put_square(
    figures: &mut Vec<Figure>,
    class: Class,
    x: u32,
    y: u32,
    half: u32,
) -> Result<(), AllocError>
    requires { half ≤ 100 }
    ensures { OnOk result (figures_seen figures.new.items
        ≡ figures_seen figures.old.items
        ++ rectangle class (x - half) (y - half) (2 * half) (2 * half) ∷ []) }
{
    let corner = (x.saturating_sub(half), y.saturating_sub(half));
    put_rectangle(figures, class, corner, (2 * half, 2 * half))
}
