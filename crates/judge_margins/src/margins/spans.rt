//! The intervals of a block of asks, side by side.

ghost use Rattle.std.specs.Prelude.{◌≡◌, ◌≤◌, ◌<◌, ℕ, IfOk, Some, length, slice_get};
ghost use Rattle.model_line.specs.Parameters.{param_count};
ghost use Rattle.judge_margins.specs.margins.Asks.{AreAsks, AreAskSpans, IsAsk, IsAskSpan, ask_box, ask_in};
ghost use Rattle.judge_margins.specs.declared.margins.ask.Ask.{Ask as AskOf};

use crate::margins::ask::Ask;
use crate::margins::known::laws_below;
use crate::margins::widened::{moved_ends, param_at, side_at};
use judge_verdict::boxes::Spans64;
use model_line::{Line, Memory};
use run_signal::{Tick, Ticks64};
use std::alloc::Global;

/// A span for each parameter: in each lane its interval in the box of the lane's ask.
pub fn ask_spans(
    alloc: Global,
    line: &Line,
    asks: &[Ask],
    first: usize,
) -> Result<Vec<Spans64>, Memory>
    requires asks { AreAsks line.now asks.now }
    requires first { first < length asks.now }
    ensures { IfOk result (λ spans. AreAskSpans line.now asks.now first spans.items) }
{
    let mut spans = Vec::new(alloc);
    for param in 0..line.param_count() {
        spans.push(ask_span(line, asks, first, param))?;
    }
    Ok(spans)
}

// The interval of a parameter in the box of each ask of a block.
fn ask_span(line: &Line, asks: &[Ask], first: usize, param: u32) -> Spans64
    requires asks { AreAsks line.now asks.now }
    requires first { first < length asks.now }
    requires param { param < param_count line.now }
    ensures { IsAskSpan line.now asks.now first param result }
{
    laws_below();
    let mut least = [Tick::new(0); 64];
    let mut greatest = [Tick::new(0); 64];
    for lane in 0..64 {
        let (low, high) = ends_asked(line, asks, ask_at(asks.len(), first, lane), param);
        least[lane] = Tick::new(low);
        greatest[lane] = Tick::new(high);
    }
    Spans64::new(Ticks64::new(least), Ticks64::new(greatest))
}

// The number of the ask in a lane of a block. The lanes past the last ask repeat it.
fn ask_at(count: usize, first: usize, lane: usize) -> usize
    requires first { first < count }
    requires lane { lane < 64 }
    ensures number { result ≡ ask_in count first lane }
    ensures exists { result < count }
{
    first.saturating_add(lane).min(count - 1)
}

// The interval of a parameter in the box of an ask.
fn ends_asked(line: &Line, asks: &[Ask], j: usize, param: u32) -> (u32, u32)
    requires asks { AreAsks line.now asks.now }
    requires there { j < length asks.now }
    requires param { param < param_count line.now }
    ensures least { (ask : AskOf) → slice_get asks.now j ≡ Some ask →
        result.0 ≡ ((ask_box line.now ask).ends param).least }
    ensures greatest { (ask : AskOf) → slice_get asks.now j ≡ Some ask →
        result.1 ≡ ((ask_box line.now ask).ends param).greatest }
    ensures ordered { result.0 ≤ result.1 }
    ensures limit { result.1 ≤ 4000 }
{
    ends_of(line, ask_of(asks, j), param)
}

fn ask_of(asks: &[Ask], j: usize) -> Ask
    requires { j < length asks.now }
    ensures { slice_get asks.now j ≡ Some result }
{
    asks[j]
}

fn ends_of(line: &Line, ask: Ask, param: u32) -> (u32, u32)
    requires ask { IsAsk line.now ask }
    requires param { param < param_count line.now }
    ensures least { result.0 ≡ ((ask_box line.now ask).ends param).least }
    ensures greatest { result.1 ≡ ((ask_box line.now ask).ends param).greatest }
    ensures ordered { result.0 ≤ result.1 }
    ensures limit { result.1 ≤ 4000 }
{
    laws_below();
    if param == param_at(ask.place) {
        moved_ends(line, param, side_at(ask.place), ask.by)
    } else {
        (line.least(param), line.greatest(param))
    }
}
