//! Numbers written in decimal digits.

ghost use Rattle.std.specs.Prelude.{◌≡◌, ◌≤◌, replicate, MatchOption, IfSome};
ghost use Rattle.std.specs.List.{list_all};
ghost use Rattle.base_text.specs.store.Number.{is_digit};
ghost use Rattle.file_comtrade.specs.Number.{digits_onto, whole_of, natural_of, scaled_of};
ghost use Rattle.file_comtrade.specs.Number.{decimals_of, plain_of, exponent_cut, places_moved, fewer, more};
ghost use Rattle.file_comtrade.specs.Number.{scaled_parts, scaled_digits};

use crate::text::cut;

/// The number that digits alone write, if it is below 2^64. Zeros may lead it.
#[tactic(auto, unfolding(crate::specs::Number::whole_of))]
pub fn whole(bytes: &[u8]) -> Option<u64>
    ensures { result ≡ whole_of bytes.now }
{
    match bytes {
        [] => None,
        _ => digits_onto(0, bytes),
    }
}

/// The number that digits alone write, if it is below 2^32.
pub fn natural(bytes: &[u8]) -> Option<u32>
    ensures { result ≡ natural_of bytes.now }
{
    let value = whole(bytes)?;
    u32::try_from(value).ok()
}

/// A decimal number, in units of 10^-places, rounded down, if that is below 2^64. It may have an
/// exponent.
#[tactic(auto, unfolding(crate::specs::Number::scaled_of))]
pub fn scaled(bytes: &[u8], places: usize) -> Option<u64>
    requires { places ≤ 9 }
    ensures { result ≡ scaled_of places bytes.now }
{
    match exponent_cut(bytes) {
        Some((mantissa, exponent)) => plain(mantissa, places_moved(places, exponent)?),
        None => plain(bytes, places),
    }
}

#[tactic(auto, unfolding(crate::specs::Number::exponent_cut))]
fn exponent_cut(bytes: &[u8]) -> Option<(&[u8], &[u8])>
    ensures { MatchOption result (exponent_cut bytes.now ≡ None)
        (λ parts. exponent_cut bytes.now ≡ Some (parts.0.now, parts.1.now)) }
{
    match cut(bytes, b'e') {
        Some(parts) => Some(parts),
        None => cut(bytes, b'E'),
    }
}

// An exponent moves the point.
#[tactic(auto, unfolding(crate::specs::Number::places_moved))]
fn places_moved(places: usize, exponent: &[u8]) -> Option<usize>
    requires { places ≤ 9 }
    ensures value { result ≡ places_moved places exponent.now }
    ensures few { IfSome result (λ moved. moved ≤ 19) }
{
    match exponent {
        [] => None,
        [b'-', digits @ ..] => fewer(places, natural(digits)?),
        [b'+', digits @ ..] => more(places, natural(digits)?),
        _ => more(places, natural(exponent)?),
    }
}

fn fewer(places: usize, n: u32) -> Option<usize>
    requires { places ≤ 9 }
    ensures value { result ≡ fewer places (Some n) }
    ensures few { IfSome result (λ moved. moved ≤ 19) }
{
    let n = n as usize;
    if n <= places { Some(places - n) } else { None }
}

fn more(places: usize, n: u32) -> Option<usize>
    requires { places ≤ 9 }
    ensures value { result ≡ more places (Some n) }
    ensures few { IfSome result (λ moved. moved ≤ 19) }
{
    let n = n as usize;
    if places + n <= 19 {
        Some(places + n)
    } else {
        None
    }
}

/// How many bytes stand behind the point.
#[tactic(auto, unfolding(crate::specs::Number::decimals_of))]
pub fn decimals(bytes: &[u8]) -> usize
    ensures { result ≡ decimals_of bytes.now }
{
    match cut(bytes, b'.') {
        Some((_, behind)) => behind.len(),
        None => 0,
    }
}

/// A decimal number with no exponent, in units of 10^-places.
#[tactic(auto, unfolding(crate::specs::Number::plain_of))]
pub fn plain(bytes: &[u8], places: usize) -> Option<u64>
    requires { places ≤ 19 }
    ensures { result ≡ plain_of places bytes.now }
{
    match cut(bytes, b'.') {
        Some((whole, decimals)) => scaled_parts(whole, decimals, places),
        None => scaled_parts(bytes, b"", places),
    }
}

#[tactic(auto, unfolding(crate::specs::Number::scaled_parts))]
fn scaled_parts(whole: &[u8], decimals: &[u8], places: usize) -> Option<u64>
    requires { places ≤ 19 }
    ensures { result ≡ scaled_parts places whole.now decimals.now }
{
    match (whole, decimals) {
        ([], []) => None,
        _ => scaled_digits(whole, decimals, places),
    }
}

#[tactic(auto, unfolding(crate::specs::Number::scaled_digits))]
fn scaled_digits(whole: &[u8], decimals: &[u8], places: usize) -> Option<u64>
    requires { places ≤ 19 }
    ensures { result ≡ scaled_digits places whole.now decimals.now }
{
    let taken = places.min(decimals.len());
    if !are_digits(&decimals[taken..]) {
        return None;
    }
    let value = digits_onto(0, whole)?;
    let value = digits_onto(value, &decimals[..taken])?;
    digits_onto(value, zeros(places - taken))
}

// Zeros, as many as that.
fn zeros(count: usize) -> &'static [u8]
    requires { count ≤ 19 }
    ensures { result.now ≡ replicate count 48 }
{
    match count {
        0 => b"",
        1 => b"0",
        2 => b"00",
        3 => b"000",
        4 => b"0000",
        5 => b"00000",
        6 => b"000000",
        7 => b"0000000",
        8 => b"00000000",
        9 => b"000000000",
        10 => b"0000000000",
        11 => b"00000000000",
        12 => b"000000000000",
        13 => b"0000000000000",
        14 => b"00000000000000",
        15 => b"000000000000000",
        16 => b"0000000000000000",
        17 => b"00000000000000000",
        18 => b"000000000000000000",
        _ => b"0000000000000000000",
    }
}

fn are_digits(bytes: &[u8]) -> bool
    ensures { result ≡ list_all is_digit bytes.now }
{
    bytes.iter().all(|byte| byte.is_ascii_digit())
}

// The number that digits make of the one before them, if all are digits and it is below 2^64.
fn digits_onto(value: u64, bytes: &[u8]) -> Option<u64>
    ensures { result ≡ digits_onto value bytes.now }
{
    let mut value = value;
    for byte in bytes {
        if !byte.is_ascii_digit() {
            return None;
        }
        value = value.checked_mul(10)?.checked_add(u64::from(*byte - b'0'))?;
    }
    Some(value)
}
