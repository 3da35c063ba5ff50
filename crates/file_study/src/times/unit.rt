//! Units of a time, in microseconds.

ghost use Rattle.std.specs.Prelude.{◌≡◌, ◌^◌, IfOk};
ghost use Rattle.file_study.specs.times.Units.{whole, cycle_in, no_unit, unit_in};
ghost use Rattle.file_study.specs.times.Fractions.{IsOfSize};

use crate::times::fraction::Fraction;
use crate::times::word::{Sign, is, sign_in};
use file_document::TimeFault;

/// One of the unit that a word at this place is.
pub fn unit_in(place: usize, hertz: Option<u32>, word: &[u8]) -> Result<Fraction, TimeFault>
    ensures is { result ≡ unit_in place hertz word.now }
    ensures within { IfOk result (IsOfSize (10 ^ 6) (10 ^ 3)) }
{
    if is(word, b"us") {
        Ok(whole(1))
    } else if is(word, b"ms") {
        Ok(whole(1_000))
    } else if is(word, b"s") {
        Ok(whole(1_000_000))
    } else if is(word, b"cycles") {
        cycle_in(place, hertz)
    } else {
        Err(no_unit(place, sign_in(word)))
    }
}

/// A whole number.
pub fn whole(number: u32) -> Fraction
    ensures { result ≡ whole number }
{
    Fraction {
        over: u128::from(number),
        under: 1,
    }
}

// One cycle of so many hertz.
fn cycle_in(place: usize, hertz: Option<u32>) -> Result<Fraction, TimeFault>
    ensures is { result ≡ cycle_in place hertz }
    ensures within { IfOk result (IsOfSize (10 ^ 6) (10 ^ 3)) }
{
    match hertz {
        Some(hertz) if 1 <= hertz && hertz <= 1_000 => Ok(Fraction {
            over: 1_000_000,
            under: u128::from(hertz),
        }),
        _ => Err(TimeFault::NoFrequency(place)),
    }
}

// Why the word is no unit.
fn no_unit(place: usize, sign: Sign) -> TimeFault
    ensures { result ≡ no_unit place sign }
{
    match sign {
        Sign::Other => TimeFault::UnknownUnit(place),
        Sign::End | Sign::To | Sign::PlusMinus | Sign::By | Sign::Percent => TimeFault::NoUnit(
            place,
        ),
    }
}
