//! Times of a record, in milliseconds.

ghost use Rattle.std.specs.Prelude.{◌≡◌, ◌++◌, IfOk, OnOk, codes, not};
ghost use Rattle.base_text.specs.lines.Milliseconds.{ticks_text};
ghost use Rattle.judge_choose.specs.Values.{is_limit};
ghost use Rattle.call_choose.specs.Times.{difference_text as difference_of, end_text as end_of};
ghost use Rattle.call_choose.specs.Times.{interval_text as interval_of, reach_text as reach_of};

use base_text::lines::push_ticks;
use judge_choose::Bound;
use model_line::Memory;
use std::alloc::Global;

/// An interval, or one time where both ends are it.
pub fn interval_text(
    alloc: Global,
    tick_us: u32,
    least: u32,
    greatest: u32,
) -> Result<Vec<u8>, Memory>
    ensures { IfOk result (λ text. text.items ≡ interval_of tick_us least greatest) }
{
    let mut text = Vec::new(alloc);
    push_ticks(&mut text, tick_us, least)?;
    if least != greatest {
        push_behind(&mut text, tick_us, greatest)?;
    }
    Ok(text)
}

// Appends the second end of an interval.
fn push_behind(text: &mut Vec<u8>, tick_us: u32, greatest: u32) -> Result<(), Memory>
    ensures { OnOk result (text.new.items
        ≡ text.old.items ++ (codes " .. " ++ ticks_text tick_us greatest)) }
{
    text.extend_from_slice(b" .. ")?;
    push_ticks(text, tick_us, greatest)?;
    Ok(())
}

/// The same with its unit, as a study has it.
pub fn value_text(alloc: Global, tick_us: u32, least: u32, greatest: u32) -> Result<Vec<u8>, Memory>
    ensures { IfOk result (λ text. text.items ≡ interval_of tick_us least greatest ++ codes " ms") }
{
    let mut text = interval_text(alloc, tick_us, least, greatest)?;
    text.extend_from_slice(b" ms")?;
    Ok(text)
}

/// Where a range ends; nothing where that is no bound.
pub fn end_text(alloc: Global, bound: Bound, tick_us: u32, t: u32) -> Result<Vec<u8>, Memory>
    ensures { IfOk result (λ text. text.items ≡ end_of bound tick_us t) }
{
    let mut text = Vec::new(alloc);
    if is_bound(bound) {
        push_ticks(&mut text, tick_us, t)?;
    }
    Ok(text)
}

fn is_bound(bound: Bound) -> bool
    ensures { result ≡ not (is_limit bound) }
{
    match bound {
        Bound::Limit => false,
        Bound::Lost(_) | Bound::Open => true,
    }
}

/// How far an end of what is declared can go to an end of a range, where that is a bound: from one
/// time down to the other; behind `-` how far it has to come.
pub fn reach_text(
    alloc: Global,
    bound: Bound,
    tick_us: u32,
    from: u32,
    down_to: u32,
) -> Result<Vec<u8>, Memory>
    ensures { IfOk result (λ text. text.items ≡ reach_of bound tick_us from down_to) }
{
    let mut text = Vec::new(alloc);
    if is_bound(bound) {
        push_difference(&mut text, tick_us, from, down_to)?;
    }
    Ok(text)
}

// Appends how far one time is behind the other; with `-` how far before it.
fn push_difference(text: &mut Vec<u8>, tick_us: u32, from: u32, down_to: u32) -> Result<(), Memory>
    ensures { OnOk result (text.new.items
        ≡ text.old.items ++ difference_of tick_us from down_to) }
{
    if down_to <= from {
        push_ticks(text, tick_us, from - down_to)?;
    } else {
        text.push(b'-')?;
        push_ticks(text, tick_us, down_to - from)?;
    }
    Ok(())
}
