//! The margin between the tick by which a trip must have come and the deadline.

ghost use Rattle.std.specs.Prelude.{◌≡◌, ◌≤◌, IfSome};
ghost use Rattle.judge_report.specs.Deadlines.{deadline_of, margin_of, margin_us_of};

use model_line::Kind;

/// The deadline of an internal fault.
pub fn deadline(kind: Kind, deadline: u32) -> Option<u32>
    ensures { result ≡ deadline_of kind deadline }
{
    match kind {
        Kind::Internal => Some(deadline),
        Kind::External => None,
    }
}

/// How many ticks lie between the first tick of an internal fault's trip and its deadline; below 0
/// where the trip is late.
pub fn margin(kind: Kind, deadline: u32, first_must: Option<u32>) -> Option<i64>
    ensures { result ≡ margin_of kind deadline first_must }
{
    match (kind, first_must) {
        (Kind::Internal, Some(first)) => Some(deadline as i64 - first as i64),
        _ => None,
    }
}

/// The margin in microseconds.
pub fn margin_us(kind: Kind, deadline: u32, first_must: Option<u32>, tick_us: u32) -> Option<i64>
    requires deadline { deadline ≤ 4000 }
    requires first { IfSome first_must (λ first. first ≤ 4000) }
    requires tick { tick_us ≤ 1000000 }
    ensures { result ≡ margin_us_of kind deadline tick_us first_must }
{
    match margin(kind, deadline, first_must) {
        Some(ticks) => Some(ticks * tick_us as i64),
        None => None,
    }
}
