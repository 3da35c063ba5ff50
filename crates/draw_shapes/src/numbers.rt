//! The numbers of the rulers.

ghost use Rattle.std.specs.Prelude.{◌≡◌, ◌≤◌, ◌<◌, ◌+◌, ◌*◌, ◌/◌, ◌%◌, ◌^◌, ◌++◌, ◌∷◌, [], OnOk, IfOk};
ghost use Rattle.std.specs.Prelude.{codes, decimal};
ghost use Rattle.model_history.specs.Each.{each_below};
ghost use Rattle.draw_shapes.specs.Seen.{figures_seen, text};
ghost use Rattle.draw_shapes.specs.Scale.{IsRuler, IsScale, IsSecondRuler, last_of};
ghost use Rattle.draw_shapes.specs.Numbers.{column_time, column_times, columns_said};
ghost use Rattle.draw_shapes.specs.Numbers.{first_with_room as first_round, has_room as room_for};
ghost use Rattle.draw_shapes.specs.Numbers.{milliseconds_said, round_of, row_time, row_times};
ghost use Rattle.draw_shapes.specs.Numbers.{rows_said, time_below, time_beside};

use crate::class::Class;
use crate::figure::Figure;
use crate::grid::Ruler;
use crate::pen::{put_line, put_text, put_words};
use crate::scale::{LEFT, Scale, along, last};
use itoa::Buffer;
use std::alloc::{AllocError, Global};

/// Appends the numbers below the columns, and what they are of.
pub fn put_columns(
    alloc: Global,
    figures: &mut Vec<Figure>,
    scale: Scale,
    ruler: &Ruler,
) -> Result<(), AllocError>
    requires fits { IsScale scale }
    requires ruler { IsRuler ruler.now }
    ensures { OnOk result (figures_seen figures.new.items
        ≡ figures_seen figures.old.items ++ columns_said scale ruler.now) }
{
    put_column_times(alloc, figures, scale, ruler, round(ruler, scale.width, 700))?;
    let at = (LEFT, scale.bottom() + 430);
    put_words(alloc, figures, Class::Begin, at, ruler.words.as_slice())
}

/// Appends the numbers at the left of the rows, and what they are of.
pub fn put_rows(
    alloc: Global,
    figures: &mut Vec<Figure>,
    scale: Scale,
    ruler: &Option<Ruler>,
) -> Result<(), AllocError>
    requires fits { IsScale scale }
    requires ruler { IsSecondRuler ruler.now }
    ensures { OnOk result (figures_seen figures.new.items
        ≡ figures_seen figures.old.items ++ rows_said scale ruler.now) }
{
    let Some(ruler) = ruler else {
        return Ok(());
    };
    put_row_times(
        alloc,
        figures,
        scale,
        ruler,
        round(ruler, scale.height, 220),
    )?;
    let at = (500, 960);
    put_words(alloc, figures, Class::Begin, at, ruler.words.as_slice())
}

fn put_column_times(
    alloc: Global,
    figures: &mut Vec<Figure>,
    scale: Scale,
    ruler: &Ruler,
    round: u64,
) -> Result<(), AllocError>
    requires fits { IsScale scale }
    requires ruler { IsRuler ruler.now }
    requires round { 1 ≤ round }
    ensures { OnOk result (figures_seen figures.new.items
        ≡ figures_seen figures.old.items ++ column_times scale ruler.now round) }
{
    for n in 0..last(ruler) / round + 1 {
        put_column_time(alloc, figures, scale, ruler, round, n)?;
    }
    Ok(())
}

fn put_column_time(
    alloc: Global,
    figures: &mut Vec<Figure>,
    scale: Scale,
    ruler: &Ruler,
    round: u64,
    n: u64,
) -> Result<(), AllocError>
    requires fits { IsScale scale }
    requires ruler { IsRuler ruler.now }
    requires time { n * round ≤ last_of ruler.now }
    ensures { OnOk result (figures_seen figures.new.items
        ≡ figures_seen figures.old.items ++ column_time scale ruler.now round n) }
{
    let time = n * round;
    if ruler.first <= time {
        let x = LEFT + along(ruler, scale.width, time);
        put_time_below(alloc, figures, scale, x, time)?;
    }
    Ok(())
}

// A stroke at the lower end of the columns, and a time below it.
fn put_time_below(
    alloc: Global,
    figures: &mut Vec<Figure>,
    scale: Scale,
    x: u32,
    time: u64,
) -> Result<(), AllocError>
    requires { IsScale scale }
    ensures { OnOk result (figures_seen figures.new.items
        ≡ figures_seen figures.old.items ++ time_below scale x time) }
{
    let foot = scale.bottom();
    put_line(figures, Class::Margin, (x, foot), (x, foot + 50))?;
    put_time(alloc, figures, Class::Middle, (x, foot + 200), time)
}

fn put_row_times(
    alloc: Global,
    figures: &mut Vec<Figure>,
    scale: Scale,
    ruler: &Ruler,
    round: u64,
) -> Result<(), AllocError>
    requires fits { IsScale scale }
    requires ruler { IsRuler ruler.now }
    requires round { 1 ≤ round }
    ensures { OnOk result (figures_seen figures.new.items
        ≡ figures_seen figures.old.items ++ row_times scale ruler.now round) }
{
    for n in 0..last(ruler) / round + 1 {
        put_row_time(alloc, figures, scale, ruler, round, n)?;
    }
    Ok(())
}

fn put_row_time(
    alloc: Global,
    figures: &mut Vec<Figure>,
    scale: Scale,
    ruler: &Ruler,
    round: u64,
    n: u64,
) -> Result<(), AllocError>
    requires fits { IsScale scale }
    requires ruler { IsRuler ruler.now }
    requires time { n * round ≤ last_of ruler.now }
    ensures { OnOk result (figures_seen figures.new.items
        ≡ figures_seen figures.old.items ++ row_time scale ruler.now round n) }
{
    let time = n * round;
    if ruler.first <= time {
        let y = scale
            .bottom()
            .saturating_sub(along(ruler, scale.height, time));
        put_time_beside(alloc, figures, y, time)?;
    }
    Ok(())
}

// A stroke at the left end of the rows, and a time beside it.
fn put_time_beside(
    alloc: Global,
    figures: &mut Vec<Figure>,
    y: u32,
    time: u64,
) -> Result<(), AllocError>
    requires { y ≤ 2000000 }
    ensures { OnOk result (figures_seen figures.new.items
        ≡ figures_seen figures.old.items ++ time_beside y time) }
{
    put_line(figures, Class::Margin, (LEFT - 50, y), (LEFT, y))?;
    put_time(alloc, figures, Class::End, (LEFT - 90, y + 40), time)
}

// Appends a time in milliseconds.
fn put_time(
    alloc: Global,
    figures: &mut Vec<Figure>,
    class: Class,
    at: (u32, u32),
    time: u64,
) -> Result<(), AllocError>
    ensures { OnOk result (figures_seen figures.new.items
        ≡ figures_seen figures.old.items ++ text class at.0 at.1 (milliseconds_said time) ∷ []) }
{
    let words = milliseconds(alloc, time)?;
    put_text(figures, class, at, words)
}

// Every how many microseconds a number stands: a round number, at which they stay so far apart.
#[tactic(auto, unfolding(crate::specs::Numbers::round_of))]
fn round(ruler: &Ruler, long: u32, apart: u32) -> u64
    requires ruler { IsRuler ruler.now }
    requires long { long ≤ 400 }
    requires apart { apart ≤ 1000 }
    ensures is { result ≡ round_of ruler.now long apart }
    ensures some { 1 ≤ result }
{
    let rounds: [u64; 19] = [
        100, 200, 500, 1000, 2000, 5000, 10000, 20000, 50000, 100000, 200000, 500000, 1000000,
        2000000, 5000000, 10000000, 20000000, 50000000, 100000000,
    ];
    first_with_room(ruler, long, apart, &rounds)
}

// The first of these at which numbers stay so far apart.
fn first_with_room(ruler: &Ruler, long: u32, apart: u32, rounds: &[u64]) -> u64
    requires ruler { IsRuler ruler.now }
    requires long { long ≤ 400 }
    requires apart { apart ≤ 1000 }
    ensures { result ≡ first_round ruler.now long apart rounds.now }
{
    match rounds {
        [] => 10000000000,
        [round, rest @ ..] => {
            if has_room(ruler, long, apart, *round) {
                *round
            } else {
                first_with_room(ruler, long, apart, rest)
            }
        }
    }
}

fn has_room(ruler: &Ruler, long: u32, apart: u32, round: u64) -> bool
    requires ruler { IsRuler ruler.now }
    requires long { long ≤ 400 }
    requires apart { apart ≤ 1000 }
    ensures { result ≡ room_for ruler.now long apart round }
{
    apart as u64 * ruler.step <= round.saturating_mul(long as u64)
}

/// Microseconds as milliseconds: whole, or with three decimal places.
pub fn milliseconds(alloc: Global, time: u64) -> Result<Vec<u8>, AllocError>
    ensures { IfOk result (λ words. words.items ≡ milliseconds_said time) }
{
    let mut words = Vec::from_slice(alloc, Buffer::new().format(time / 1000).as_bytes())?;
    if time % 1000 != 0 {
        push_places(&mut words, time)?;
    }
    Ok(words)
}

// Appends the microseconds of a time as three decimal places.
fn push_places(words: &mut Vec<u8>, time: u64) -> Result<(), AllocError>
    ensures { OnOk result (words.new.items ≡ words.old.items ++ (codes "."
        ++ (decimal (time / 100 % 10) ++ (decimal (time / 10 % 10) ++ decimal (time % 10))))) }
{
    words.extend_from_slice(b".")?;
    push_digit(words, time / 100)?;
    push_digit(words, time / 10)?;
    push_digit(words, time)
}

// Appends the last digit of a number.
fn push_digit(words: &mut Vec<u8>, number: u64) -> Result<(), AllocError>
    ensures { OnOk result (words.new.items ≡ words.old.items ++ decimal (number % 10)) }
{
    words.extend_from_slice(Buffer::new().format(number % 10).as_bytes())
}
