//! The instant of tick 0, and the shift of a recorder's clock.

ghost use Rattle.std.specs.Prelude.{◌≡◌, ◌<◌, ◌≤◌, ◌^◌, IfOk, IfSome, length, option_map};
ghost use Rattle.toml.specs.View.{view};
ghost use Rattle.file_records.specs.map.Instants.{has_date, date_in, dated, instant_of, instant_in};
ghost use Rattle.file_records.specs.map.Instants.{moved, shifted, shifted_in, shifted_by};

use file_comtrade::{DateOrder, moment};
use file_document::{DocumentFault, Path};
use toml::Value;

// Whether `yyyy-mm-ddT` stands before a time, with no 0 at its front.
fn has_date(text: &[u8]) -> bool
    requires { 11 ≤ length text.now }
    ensures { result ≡ has_date text.now }
{
    b'0' < text[0] && text[4] == b'-' && text[7] == b'-' && text[10] == b'T'
}

fn dated(text: &[u8]) -> Option<u128>
    requires { 11 ≤ length text.now }
    ensures value { result ≡ dated text.now }
    ensures early { IfSome result (λ n. n < 2 ^ 80) }
{
    if !has_date(text) {
        return None;
    }
    let date = [
        text[8], text[9], b'/', text[5], text[6], b'/', text[0], text[1], text[2], text[3],
    ];
    moment(DateOrder::DayFirst, &date, &text[11..])
}

// `yyyy-mm-ddThh:mm:ss` with up to nine decimals, in nanoseconds from the start of the year 0.
fn instant_of(text: &[u8]) -> Option<u128>
    ensures value { result ≡ instant_of text.now }
    ensures early { IfSome result (λ n. n < 2 ^ 80) }
{
    if text.len() >= 11 { dated(text) } else { None }
}

/// An instant.
pub fn instant(path: Path, text: &[u8]) -> Result<u128, DocumentFault>
    ensures value { result ≡ instant_in path (instant_of text.now) }
    ensures early { IfOk result (λ n. n < 2 ^ 80) }
{
    match instant_of(text) {
        Some(instant) => Ok(instant),
        None => Err(DocumentFault::BadDate(path)),
    }
}

const DAY_US: u64 = 86_400_000_000;

// So much earlier, or, where the shift is negative, later.
fn moved(path: Path, start: u128, shift: i64, size: u64) -> Result<u128, DocumentFault>
    requires early { start < 2 ^ 80 }
    requires small { size ≤ 86400000000 }
    ensures value { result ≡ moved path start shift size }
    ensures early { IfOk result (λ n. n < 2 ^ 100) }
{
    let nanos = u128::from(size) * 1000;
    if shift < 0 {
        Ok(start + nanos)
    } else if nanos <= start {
        Ok(start - nanos)
    } else {
        Err(DocumentFault::Range(path))
    }
}

// An instant in the clock of a recorder, to whose times so many microseconds are added.
fn shifted_by(path: Path, start: u128, shift: i64) -> Result<u128, DocumentFault>
    requires { start < 2 ^ 80 }
    ensures value { result ≡ shifted_by path start shift }
    ensures early { IfOk result (λ n. n < 2 ^ 100) }
{
    let size = shift.unsigned_abs();
    if size <= DAY_US {
        moved(path, start, shift, size)
    } else {
        Err(DocumentFault::Range(path))
    }
}

/// The instant of tick 0 in a recorder's clock, by what is added to its times.
pub fn shifted(path: Path, start: u128, shift: Option<&Value>) -> Result<u128, DocumentFault>
    requires { start < 2 ^ 80 }
    ensures value { result ≡ shifted path start (option_map (λ v. view v.now) shift.entry) }
    ensures early { IfOk result (λ n. n < 2 ^ 100) }
{
    let Some(shift) = shift else {
        return Ok(start);
    };
    match shift.as_integer() {
        Some(shift) => shifted_by(path, start, shift),
        None => Err(DocumentFault::WrongKind(path)),
    }
}
