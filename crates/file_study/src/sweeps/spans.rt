//! What is seen of a fault whose times are fixed.

ghost use Rattle.std.specs.Prelude.{◌≡◌, ◌+◌, ◌++◌, ◌≤◌, OnOk, drop, length, take};
ghost use Rattle.file_study.specs.sweeps.Spans.{goes_on, joined, joined_first, stage_spans};

use crate::study::Shown;
use model_line::{Memory, SeenSpan};

// Whether the span goes on without a gap where the other one ends.
fn goes_on(old: &SeenSpan, new: &SeenSpan) -> bool
    ensures { result ≡ goes_on old.now new.now }
{
    old.what == new.what && old.to == new.from
}

// The place of the first span that the new one goes on, or the length where there is none.
fn place(spans: &[SeenSpan], new: &SeenSpan) -> usize
    ensures within { result ≤ length spans.now }
    ensures joined { joined new.now spans.now
        ≡ take result spans.now ++ joined_first new.now (drop result spans.now) }
{
    for i in 0..spans.len() {
        if goes_on(&spans[i], new) {
            return i;
        }
    }
    spans.len()
}

// Adds a span, joined to the first that it goes on.
fn join(spans: &mut Vec<SeenSpan>, new: SeenSpan) -> Result<(), Memory>
    ensures { OnOk result (spans.new.items ≡ joined new spans.old.items) }
{
    let i = place(spans, &new);
    if i < spans.len() {
        spans[i].to = new.to;
    } else {
        spans.push(new)?;
    }
    Ok(())
}

/// Adds what a stage shows.
pub fn push_stage(
    spans: &mut Vec<SeenSpan>,
    begin: u32,
    lasts: u32,
    shows: &[Shown],
) -> Result<(), Memory>
    requires { begin + lasts ≤ 1000000 }
    ensures { OnOk result (spans.new.items ≡ stage_spans begin lasts shows.now spans.old.items) }
{
    for shown in shows {
        if shown.after < lasts {
            let from = begin + shown.after;
            let to = begin + lasts;
            join(
                spans,
                SeenSpan {
                    what: shown.what,
                    from,
                    to,
                },
            )?;
        }
    }
    Ok(())
}
