//! What a range answers of a setting, and the position to write.

ghost use Rattle.std.specs.Prelude.{◌≡◌, ◌≤◌};
ghost use Rattle.judge_choose.specs.Values.{answer_of, is_limit as is_limit_of, room_at as room_of, roomy_value_of, value_of};

use crate::range::{Bound, Range};

/// Whether what is declared lies in a range; any where the range has no bound on either side.
#[derive(Clone, Copy)]
pub enum Answer {
    Inside,
    Outside,
    Any,
}

/// What a range answers of a setting that is declared at this position.
pub fn answer_at(range: &Range, declared: u32) -> Answer
    ensures { result ≡ answer_of range.now declared }
{
    if is_limit(range.below) && is_limit(range.above) {
        Answer::Any
    } else if range.first <= declared && declared <= range.last {
        Answer::Inside
    } else {
        Answer::Outside
    }
}

fn is_limit(bound: Bound) -> bool
    ensures { result ≡ is_limit_of bound }
{
    match bound {
        Bound::Limit => true,
        Bound::Lost(_) | Bound::Open => false,
    }
}

// What has to be left at an end.
fn room_at(bound: Bound, room: u32) -> u32
    ensures room { result ≡ room_of bound room }
    ensures small { result ≤ room }
{
    if is_limit(bound) { 0 } else { room }
}

/// The position to write: the middle of a range that has both bounds, else the nearest to what is
/// declared.
pub fn value(range: &Range, declared: u32) -> u32
    requires ordered { range.now.first ≤ range.now.last }
    requires limit { range.now.last ≤ 4000 }
    ensures value { result ≡ value_of range.now declared }
    ensures first { range.now.first ≤ result }
    ensures last { result ≤ range.now.last }
{
    if is_limit(range.below) || is_limit(range.above) {
        declared.max(range.first).min(range.last)
    } else {
        (range.first + range.last) / 2
    }
}

/// The position to write with so much room to each bound: the nearest to what is declared, or the
/// middle where no position has it.
pub fn roomy_value(range: &Range, declared: u32, room: u32) -> u32
    requires ordered { range.now.first ≤ range.now.last }
    requires limit { range.now.last ≤ 4000 }
    requires room { room ≤ 4000 }
    ensures value { result ≡ roomy_value_of range.now declared room }
    ensures first { range.now.first ≤ result }
    ensures last { result ≤ range.now.last }
{
    let low = range.first + room_at(range.below, room);
    let above = room_at(range.above, room);
    if low + above <= range.last {
        declared.max(low).min(range.last - above)
    } else {
        (range.first + range.last) / 2
    }
}
