//! Where a fault is not held at a terminal, as stretches of places.

ghost use Rattle.std.specs.Prelude.{◌≡◌, ◌<◌, ◌++◌, IfOk, OnOk, length};
ghost use Rattle.std.specs.List.{list_any};
ghost use Rattle.call_verdicts.specs.Stretches.{begins, ends, lost_at, mark_of, mark_text};
ghost use Rattle.call_verdicts.specs.Stretches.{place_label, stretches, values_label};
ghost use Rattle.call_verdicts.specs.Stretches.{is_lost as verdict_is_lost};

use crate::fields::times;
use crate::verdict::{Verdict, is_held};
use file_study::sweeps::Group;
use itoa::Buffer;
use model_line::Memory;
use std::alloc::Global;

/// What a place is among the stretches that are not held.
#[derive(Clone, Copy)]
pub enum Mark {
    /// The first of the first stretch.
    First,
    /// The first of a further one.
    Next,
    /// The last of one with others before it.
    Last,
    /// None of these.
    Inside,
}

/// The stretches by the numbers of their places, as `4..31;40`.
pub fn places_text(alloc: Global, verdicts: &[Verdict]) -> Result<Vec<u8>, Memory>
    ensures { IfOk result (λ text.
        text.items ≡ stretches verdicts.now place_label (length verdicts.now)) }
{
    let mut text = Vec::new(alloc);
    for p in 0..verdicts.len() {
        let mark = mark_at(verdicts, p);
        push_mark(&mut text, mark, Buffer::new().format(p + 1).as_bytes())?;
    }
    Ok(text)
}

/// The stretches by the values of the swept times at their places, as `11..38;47`.
pub fn values_text(
    alloc: Global,
    tick_us: u32,
    group: &Group,
    verdicts: &[Verdict],
) -> Result<Vec<u8>, Memory>
    ensures { IfOk result (λ text. text.items
        ≡ stretches verdicts.now (values_label tick_us group.now) (length verdicts.now)) }
{
    let mut text = Vec::new(alloc);
    for p in 0..verdicts.len() {
        let mark = mark_at(verdicts, p);
        let label = values(alloc, tick_us, group, p)?;
        push_mark(&mut text, mark, label.as_slice())?;
    }
    Ok(text)
}

// The values of the swept times at a place.
fn values(alloc: Global, tick_us: u32, group: &Group, p: usize) -> Result<Vec<u8>, Memory>
    ensures { IfOk result (λ text. text.items ≡ values_label tick_us group.now p) }
{
    if p < group.swept.len() {
        times(alloc, tick_us, group.swept[p].as_slice())
    } else {
        Ok(Vec::new(alloc))
    }
}

fn push_mark(text: &mut Vec<u8>, mark: Mark, label: &[u8]) -> Result<(), Memory>
    ensures { OnOk result (text.new.items ≡ text.old.items ++ mark_text mark label.now) }
{
    let before: &[u8] = match mark {
        Mark::First => b"",
        Mark::Next => b";",
        Mark::Last => b"..",
        Mark::Inside => return Ok(()),
    };
    text.extend_from_slice(before)?;
    Ok(text.extend_from_slice(label)?)
}

fn mark_at(verdicts: &[Verdict], p: usize) -> Mark
    requires { p < length verdicts.now }
    ensures { result ≡ mark_of verdicts.now p }
{
    if begins_at(verdicts, p) {
        if some_is_lost(&verdicts[..p]) {
            Mark::Next
        } else {
            Mark::First
        }
    } else if ends_at(verdicts, p) {
        Mark::Last
    } else {
        Mark::Inside
    }
}

fn some_is_lost(verdicts: &[Verdict]) -> bool
    ensures { result ≡ list_any verdict_is_lost verdicts.now }
{
    verdicts.iter().any(|one| is_lost(one))
}

fn begins_at(verdicts: &[Verdict], p: usize) -> bool
    requires { p < length verdicts.now }
    ensures { result ≡ begins verdicts.now p }
{
    is_lost_at(verdicts, p) && (p == 0 || !is_lost_at(verdicts, p - 1))
}

fn ends_at(verdicts: &[Verdict], p: usize) -> bool
    requires { p < length verdicts.now }
    ensures { result ≡ ends verdicts.now p }
{
    is_lost_at(verdicts, p) && !is_lost_at(verdicts, p + 1)
}

fn is_lost_at(verdicts: &[Verdict], p: usize) -> bool
    ensures { result ≡ lost_at verdicts.now p }
{
    match verdicts.get(p) {
        Some(one) => is_lost(one),
        None => false,
    }
}

fn is_lost(verdict: &Verdict) -> bool
    ensures { result ≡ verdict_is_lost verdict.now }
{
    !is_held(verdict)
}
