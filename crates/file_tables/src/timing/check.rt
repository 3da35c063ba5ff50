//! The checks of one record, each of them alone.

ghost use Rattle.std.specs.Prelude.{◌≡◌, ◌≤◌, ◌<◌, ◌+◌, ◌&&◌, ◌==◌, Some, length, drop, IfSome};
ghost use Rattle.std.specs.List.{list_any, position_or_len};
ghost use Rattle.std.specs.Str.{bytes_eq};
ghost use Rattle.file_tables.specs.timing.SoFar.{open_of, IsNamedIn, IsPlaced};
ghost use Rattle.file_tables.specs.timing.Checks.{is_at, step_named, named_in, value_for, number_within};
ghost use Rattle.file_tables.specs.timing.Checks.{is_given as is_given_in};

use crate::timing::named::Named;
use crate::timing::reading::Open;
use base_records::{is, is_nothing};
use base_text::store::number;
use model_line::Line;
use model_line::laws::parameters_are_numbered;
use model_names::parameter_of_name;
use model_timing::{NamedTiming, is_in};

/// Whether one of the timings has the name.
pub fn is_any(timings: &[NamedTiming], name: &[u8]) -> bool
    ensures { result ≡ list_any (λ timing. bytes_eq timing.name name.now) timings.now }
{
    timings.iter().any(|timing| is(timing.name.bytes(), name))
}

/// What the parameter field names.
pub fn named(line: &Line, field: &[u8]) -> Option<Named>
    ensures named { result ≡ named_in line.now field.now }
    ensures exists { IfSome result (IsNamedIn line.now) }
    ensures placed { IfSome result IsPlaced }
{
    if is_nothing(field) {
        return Some(Named::Nothing);
    }
    match parameter_of_name(line, field) {
        Some(i) => Some(Named::Number(i)),
        None => step(line, field),
    }
}

fn step(line: &Line, field: &[u8]) -> Option<Named>
    ensures named { result ≡ step_named line.now field.now }
    ensures exists { IfSome result (IsNamedIn line.now) }
{
    parameters_are_numbered();
    let at = place_of_at(field);
    let i = parameter_of_name(line, &field[..at])?;
    let from = number(after(field, at))?;
    if line.is_delay(i) && 1 <= from && from < line.horizon {
        Some(Named::Step(i, from))
    } else {
        None
    }
}

// The place of the first `@`, or the length where there is none.
fn place_of_at(field: &[u8]) -> usize
    ensures place { result ≡ position_or_len is_at field.now }
    ensures within { result ≤ length field.now }
{
    for (i, b) in field.iter().enumerate() {
        if *b == b'@' {
            return i;
        }
    }
    field.len()
}

// What stands behind the byte at that place.
fn after(field: &[u8], at: usize) -> &[u8]
    requires { at ≤ length field.now }
    ensures { result.now ≡ drop (at + 1) field.now }
{
    if at < field.len() {
        &field[at + 1..]
    } else {
        &[]
    }
}

/// The value of a row that names this.
pub fn value(line: &Line, what: Named, field: &[u8]) -> Option<u32>
    ensures value { result ≡ value_for line.now what field.now }
    ensures small { IfSome result (λ v. v ≤ 4000) }
{
    match what {
        Named::Nothing => { if is_nothing(field) { Some(0) } else { None } }
        Named::Number(i) => within(line, i, number(field)?),
        Named::Step(i, _) => within(line, i, number(field)?),
    }
}

fn within(line: &Line, i: u32, value: u32) -> Option<u32>
    ensures value { result ≡ number_within line.now i (Some value) }
    ensures small { IfSome result (λ v. v ≤ 4000) }
{
    if is_in(line, i, value) {
        Some(value)
    } else {
        None
    }
}

/// Whether a row of the timing has named this.
pub fn is_given(timing: &Open, what: Named) -> bool
    requires { IsPlaced what }
    ensures { result ≡ is_given_in (open_of timing.now) what }
{
    match what {
        Named::Nothing => false,
        Named::Number(i) => has(timing.given.as_slice(), i),
        Named::Step(i, from) => timing.steps.has(i, from),
    }
}

fn has(given: &[u32], i: u32) -> bool
    ensures { result ≡ list_any (λ k. k == i) given.now }
{
    given.iter().any(|k| *k == i)
}
