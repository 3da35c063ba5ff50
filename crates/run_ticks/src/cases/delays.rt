//! The delay of each channel.

ghost use Rattle.std.specs.Prelude.{◌≡◌, length, IfOk};
ghost use Rattle.model_line.specs.Parameters.{param_count};
ghost use Rattle.run_ticks.specs.cases.Given.{AreDelays};

use model_line::{Line, Memory};
use run_signal::Signal;
use std::alloc::Global;

/// A channel's delay: the terminal that sends, and the span.
#[derive(Clone, Copy)]
pub struct Delay<P: Copy> {
    pub from: u32,
    pub span: P,
}

/// The delay of each channel, in the order of the line.
pub fn fresh_delays<V: Signal>(
    alloc: Global,
    line: &Line,
    spans: &[V::Span],
) -> Result<Vec<Delay<V::Span>>, Memory>
    requires spans { length spans.now ≡ param_count line.now }
    ensures { IfOk result (λ delays. AreDelays line.now spans.now delays.items) }
{
    let mut delays = Vec::new(alloc);
    for channel in 0..line.channels.len() {
        let param = line.delay_of(channel as u32);
        delays.push(Delay {
            from: line.channels[channel].from,
            span: spans[param as usize],
        })?;
    }
    Ok(delays)
}
