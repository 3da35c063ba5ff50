//! What is shown at the least lengths of a part.

ghost use Rattle.std.specs.Prelude.{◌≡◌, ◌≤◌, ◌++◌, length, IfOk, OnOk};
ghost use Rattle.model_borders.specs.Least.{ShowTheLeast, least_span, least_spans, least_tick, with_tick};

use crate::borders::earliest_place;
use crate::script::{Border, LooseScript, LooseSpan};
use model_line::{Memory, SeenSpan};
use run_signal::Within;
use std::alloc::Global;

/// The tick at which a border stands at the least lengths of a part.
pub fn least_place(borders: &[Border], part: &[Within], border: u32) -> u32
    requires { length part.now ≤ 16 }
    ensures place { result ≡ least_tick borders.now part.now border }
    ensures limited { result ≤ 17000000 }
{
    earliest_place(borders, part, border)
}

/// What is seen and lost at the least lengths of a part, tick by tick, as spans that each hold a tick.
pub fn least_shown(
    alloc: Global,
    script: &LooseScript,
    part: &[Within],
) -> Result<Vec<SeenSpan>, Memory>
    requires { length part.now ≤ 16 }
    ensures { IfOk result (λ spans. ShowTheLeast script.now part.now spans.items) }
{
    let spans = least_spans(alloc, script, part)?;
    Ok(spans)
}

// The spans of the script that hold a tick there, in its order.
fn least_spans(
    alloc: Global,
    script: &LooseScript,
    part: &[Within],
) -> Result<Vec<SeenSpan>, Memory>
    requires { length part.now ≤ 16 }
    ensures { IfOk result (λ spans. spans.items
        ≡ least_spans script.now.borders.items part.now script.now.spans.items) }
{
    let mut spans = Vec::new(alloc);
    for i in 0..script.spans.len() {
        let span = least_span(script.borders.as_slice(), part, script.spans[i]);
        push_span(&mut spans, span)?;
    }
    Ok(spans)
}

// A span from its first border on before its last.
fn least_span(borders: &[Border], part: &[Within], span: LooseSpan) -> SeenSpan
    requires { length part.now ≤ 16 }
    ensures { result ≡ least_span borders.now part.now span }
{
    SeenSpan {
        what: span.what,
        from: earliest_place(borders, part, span.from),
        to: earliest_place(borders, part, span.to),
    }
}

// Appends a span, if it holds a tick.
fn push_span(spans: &mut Vec<SeenSpan>, span: SeenSpan) -> Result<(), Memory>
    ensures { OnOk result (spans.new.items ≡ spans.old.items ++ with_tick span) }
{
    if span.from < span.to {
        spans.push(span)?;
    }
    Ok(())
}
