//! The spans of a script, gate by gate.

ghost use Rattle.std.specs.Prelude.{◌≡◌, ◌+◌, ◌++◌, ◌<◌, IfOk, length};
ghost use Rattle.std.specs.List.{filter};
ghost use Rattle.model_line.specs.Seen.{is_of_place as place_of, is_of_loss as loss_of};
ghost use Rattle.model_line.specs.declared.script.SeenSpan.{SeenSpan};
ghost use Rattle.model_logic.specs.PairMean.{PairWorld};
ghost use Rattle.run_step.specs.Shown.{IsShown, is_shown_by};
ghost use Rattle.run_changes.specs.changes.ShownBy.{AreShownBy, AreStarts, HasSpansOf, shown_of};

use model_line::{Memory, Place, Script, SeenSpan, What};
use net_gates::{Gate, GateId, Net};
use std::alloc::Global;

/// For each gate the spans that it shows: those of its place, or of the loss of its channel.
#[derive(Drop)]
pub struct ShownBy {
    // Gate after gate.
    spans: Vec<SeenSpan>,
    // Where those of each gate begin, and the end.
    starts: Vec<usize>,
}

impl ShownBy {
    /// The spans that a gate shows.
    pub fn of(&self, gate: u32) -> &[SeenSpan]
        requires inside { gate + 1 < length self.now.starts.items }
        requires starts { AreStarts self.now.spans.items self.now.starts.items }
        ensures { result.now ≡ shown_of self.now gate }
    {
        let from = self.starts[gate as usize];
        let to = self.starts[gate as usize + 1];
        &self.spans[from..to]
    }
}

/// The spans that a gate shows; none is looked for where its kind shows none.
pub fn spans_of<'a>(gate: &Gate, shown: &'a ShownBy, i: u32) -> &'a [SeenSpan]
    requires inside { i + 1 < length shown.now.starts.items }
    requires starts { AreStarts shown.now.spans.items shown.now.starts.items }
    ensures { (w : PairWorld) → IsShown (shown_of shown.now i) w gate.now →
        IsShown result.now w gate.now }
{
    match *gate {
        Gate::Const(_) => &[],
        Gate::Seen(_) => shown.of(i),
        Gate::Loss(_) => shown.of(i),
        Gate::Raw(_) => &[],
        Gate::Not(_) => &[],
        Gate::And(_, _) => &[],
        Gate::Or(_, _) => &[],
        Gate::Timer(_, _, _) => &[],
        Gate::Seal(_, _) => &[],
    }
}

/// The spans that each gate of a net shows. All memory is taken here.
pub fn fresh_shown(alloc: Global, net: &Net, script: &Script) -> Result<ShownBy, Memory>
    ensures each { IfOk result (λ shown. HasSpansOf (length net.now.gates) shown) }
    ensures shown { IfOk result (λ shown. AreShownBy script.now net.now.gates shown) }
{
    let mut spans = Vec::with_capacity(alloc, script.spans.len())?;
    let mut starts = Vec::with_capacity(alloc, net.len() as usize + 1)?;
    starts.push_reserved(0);
    for i in 0..net.len() {
        list_shown(net.gate(GateId(i)), &script.spans, &mut spans)?;
        starts.push_reserved(spans.len());
    }
    Ok(ShownBy { spans, starts })
}

// Appends the spans that a gate shows.
fn list_shown(gate: &Gate, all: &[SeenSpan], spans: &mut Vec<SeenSpan>) -> Result<(), Memory>
    ensures { IfOk result (λ _.
        spans.new.items ≡ spans.old.items ++ filter (is_shown_by gate.now) all.now) }
{
    match *gate {
        Gate::Const(_) => Ok(()),
        Gate::Seen(place) => list_of_place(place, all, spans),
        Gate::Loss(channel) => list_of_loss(channel, all, spans),
        Gate::Raw(_) => Ok(()),
        Gate::Not(_) => Ok(()),
        Gate::And(_, _) => Ok(()),
        Gate::Or(_, _) => Ok(()),
        Gate::Timer(_, _, _) => Ok(()),
        Gate::Seal(_, _) => Ok(()),
    }
}

// Appends the spans of a place.
fn list_of_place(place: Place, all: &[SeenSpan], spans: &mut Vec<SeenSpan>) -> Result<(), Memory>
    ensures { IfOk result (λ _. spans.new.items
        ≡ spans.old.items ++ filter (λ (s : SeenSpan). place_of place s.what) all.now) }
{
    for span in all {
        if is_of_place(span, place) {
            spans.push(*span)?;
        }
    }
    Ok(())
}

// Appends the spans of the loss of a channel.
fn list_of_loss(channel: u32, all: &[SeenSpan], spans: &mut Vec<SeenSpan>) -> Result<(), Memory>
    ensures { IfOk result (λ _. spans.new.items
        ≡ spans.old.items ++ filter (λ (s : SeenSpan). loss_of channel s.what) all.now) }
{
    for span in all {
        if is_of_loss(span, channel) {
            spans.push(*span)?;
        }
    }
    Ok(())
}

fn is_of_place(span: &SeenSpan, place: Place) -> bool
    ensures { result ≡ place_of place span.now.what }
{
    match span.what {
        What::Element(seen) => seen == place,
        What::Loss(_) => false,
    }
}

fn is_of_loss(span: &SeenSpan, channel: u32) -> bool
    ensures { result ≡ loss_of channel span.now.what }
{
    match span.what {
        What::Element(_) => false,
        What::Loss(lost) => lost == channel,
    }
}
