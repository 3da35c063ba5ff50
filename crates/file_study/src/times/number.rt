//! Numbers of a time.

ghost use Rattle.std.specs.Prelude.{◌≡◌, ◌≤◌, ◌<◌, ◌+◌, ◌*◌, ◌^◌, IsTrue, IfOk, length};
ghost use Rattle.std.specs.List.{list_all};
ghost use Rattle.base_text.specs.store.Number.{is_digit, decimal_value};
ghost use Rattle.file_study.specs.times.Numbers.{whole_part, decimals, is_whole};
ghost use Rattle.file_study.specs.times.Numbers.{is_number, is_parted_well};
ghost use Rattle.file_study.specs.times.Numbers.{number_in};
ghost use Rattle.file_study.specs.times.Fractions.{IsOfSize};

use crate::times::fraction::Fraction;
use base_text::lines::find_byte;
use file_document::TimeFault;

/// The number that a word at this place is, of at most nine digits.
pub fn number_in(place: usize, word: &[u8]) -> Result<Fraction, TimeFault>
    ensures is { result ≡ number_in place word.now }
    ensures within { IfOk result (IsOfSize (10 ^ 9) (10 ^ 8)) }
{
    if !is_number(word) {
        return Err(TimeFault::NoNumber(place));
    }
    let whole = whole_part(word);
    let decimals = decimals(word);
    if whole.len() <= 9 && decimals.len() <= 9 - whole.len() {
        Ok(decimal(whole, decimals))
    } else {
        Err(TimeFault::TooManyDigits(place))
    }
}

// What stands before the point, or all where there is none.
fn whole_part(word: &[u8]) -> &[u8]
    ensures { result.now ≡ whole_part word.now }
{
    &word[..find_byte(word, b'.')]
}

// What stands behind the point.
fn decimals(word: &[u8]) -> &[u8]
    ensures { result.now ≡ decimals word.now }
{
    let point = find_byte(word, b'.');
    if point < word.len() {
        &word[point + 1..]
    } else {
        &word[point..]
    }
}

// Whether it is digits, or digits, a point and at least one digit.
fn is_number(word: &[u8]) -> bool
    ensures { result ≡ is_number word.now }
{
    is_whole(whole_part(word)) && are_digits(decimals(word)) && is_parted_well(word)
}

// Whether it has no point, or something behind it.
fn is_parted_well(word: &[u8]) -> bool
    ensures { result ≡ is_parted_well word.now }
{
    find_byte(word, b'.') == word.len() || 0 < decimals(word).len()
}

// Whether it is at least one digit, and has no `0` before another.
fn is_whole(digits: &[u8]) -> bool
    ensures { result ≡ is_whole digits.now }
{
    are_digits(digits) && (digits.len() == 1 || (1 < digits.len() && digits[0] != b'0'))
}

// Whether all bytes are digits.
fn are_digits(bytes: &[u8]) -> bool
    ensures { result ≡ list_all is_digit bytes.now }
{
    bytes.iter().all(|byte| b'0' <= *byte && *byte <= b'9')
}

// What whole digits and decimals come to.
fn decimal(whole: &[u8], decimals: &[u8]) -> Fraction
    requires whole { IsTrue (list_all is_digit whole.now) }
    requires decimals { IsTrue (list_all is_digit decimals.now) }
    requires some { 0 < length whole.now }
    requires few { length whole.now + length decimals.now ≤ 9 }
    ensures over { result.over ≡ decimal_value whole.now * 10 ^ length decimals.now
        + decimal_value decimals.now }
    ensures under { result.under ≡ 10 ^ length decimals.now }
    ensures within { IsOfSize (10 ^ 9) (10 ^ 8) result }
{
    let parts = power(decimals.len());
    Fraction {
        over: value(whole) * parts + value(decimals),
        under: parts,
    }
}

// Ten to the power of a number up to nine.
fn power(exponent: usize) -> u128
    requires { exponent ≤ 9 }
    ensures is { result ≡ 10 ^ exponent }
    ensures within { result ≤ 10 ^ 9 }
{
    let mut power = 1;
    for _ in 0..exponent {
        power *= 10;
    }
    power
}

// What at most nine digits come to.
fn value(digits: &[u8]) -> u128
    requires digits { IsTrue (list_all is_digit digits.now) }
    requires few { length digits.now ≤ 9 }
    ensures is { result ≡ decimal_value digits.now }
    ensures below { result < 10 ^ length digits.now }
{
    let mut value = 0;
    for digit in digits {
        value = value * 10 + u128::from(*digit - b'0');
    }
    value
}
