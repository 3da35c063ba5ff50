//! What a script shows at a tick.

ghost use Rattle.std.specs.Prelude.{◌≡◌, ◌≤◌, length, vec_capacity};
ghost use Rattle.run_ticks.specs.cases.Given.{spans_at};

use model_line::SeenSpan;
use run_step::extend_within;

/// Those of the spans that hold a tick, in a list with room for all.
pub fn show_at(spans: &[SeenSpan], present: &mut Vec<SeenSpan>, t: u32)
    requires room { length spans.now ≤ vec_capacity present.old }
    ensures room { vec_capacity present.old ≤ vec_capacity present.new }
    ensures shown { present.new.items ≡ spans_at t spans.now }
{
    present.clear();
    extend_within(present, spans);
    present.retain(|span| span.from <= t && t < span.to);
}
