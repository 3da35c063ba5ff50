//! What the text of a time says.

ghost use Rattle.std.specs.Prelude.{◌≡◌, ◌≤◌, ◌<◌, ◌+◌, ◌*◌, ◌^◌, IfOk};
ghost use Rattle.file_study.specs.times.Fractions.{times, plus, less, IsAtMost, IsOfSize};
ghost use Rattle.file_study.specs.times.Units.{whole};
ghost use Rattle.file_study.specs.times.Words.{sign_at};
ghost use Rattle.file_study.specs.times.Times.{number_at, unit_at, measured_at, value_at};
ghost use Rattle.file_study.specs.times.Times.{closed_at, closed};
ghost use Rattle.file_study.specs.times.Times.{interval, percent, tolerated};
ghost use Rattle.file_study.specs.times.Times.{behind_share, behind_tolerance};
ghost use Rattle.file_study.specs.times.Times.{stepped, behind_ends, ends_at, behind_value};
ghost use Rattle.file_study.specs.times.Times.{behind_number};
ghost use Rattle.file_study.specs.times.Times.{first_number, time_of, IsEnd, IsMeasured, IsReadable};

use crate::times::fraction::Fraction;
use crate::times::number::number_in;
use crate::times::time::{Interval, Sweep, Time};
use crate::times::unit::{unit_in, whole};
use crate::times::word::{Sign, place, sign_in, word};
use file_document::TimeFault;

/// What a text says, where the system has so many hertz. Words are parted by one or more spaces:
/// `8 ms`, `8 .. 16 ms`, `500 us .. 2 ms`, `30 ms +- 2 ms`, `30 ms +- 5 % +- 2 ms`,
/// `8 .. 120 ms by 1 ms`.
pub fn read_time(text: &[u8], hertz: Option<u32>) -> Result<Time, TimeFault>
    ensures is { result ≡ time_of hertz text.now }
    ensures readable { IfOk result IsReadable }
{
    let reading = Reading { text, hertz };
    let number = reading.first_number()?;
    reading.behind_number(number)
}

// A text that is read, where the system has so many hertz. Its words are counted from 0.
#[derive(Clone, Copy, Drop)]
struct Reading<'a> {
    text: &'a [u8],
    hertz: Option<u32>,
}

impl<'a> Reading<'a> {
    // The sign that a word is.
    fn sign(&self, k: usize) -> Sign
        ensures { result ≡ sign_at self.now.text.now k }
    {
        sign_in(word(self.text, k))
    }

    // The number that a word is.
    fn number(&self, k: usize) -> Result<Fraction, TimeFault>
        ensures is { result ≡ number_at self.now.text.now k }
        ensures within { IfOk result (IsOfSize (10 ^ 9) (10 ^ 8)) }
    {
        number_in(place(self.text, k), word(self.text, k))
    }

    // One of the unit that a word is.
    fn unit(&self, k: usize) -> Result<Fraction, TimeFault>
        ensures is { result ≡ unit_at self.now.hertz self.now.text.now k }
        ensures within { IfOk result (IsOfSize (10 ^ 6) (10 ^ 3)) }
    {
        unit_in(place(self.text, k), self.hertz, word(self.text, k))
    }

    // So many of the unit that a word is.
    fn measured(&self, number: Fraction, k: usize) -> Result<Fraction, TimeFault>
        requires { IsOfSize (10 ^ 9) (10 ^ 8) number }
        ensures is { result ≡ measured_at self.now.hertz self.now.text.now number k }
        ensures within { IfOk result IsMeasured }
    {
        let one = self.unit(k)?;
        Ok(in_units(number, one))
    }

    // A number and its unit behind it.
    fn value(&self, k: usize) -> Result<Fraction, TimeFault>
        requires { k < 100 }
        ensures is { result ≡ value_at self.now.hertz self.now.text.now k }
        ensures within { IfOk result IsMeasured }
    {
        let number = self.number(k)?;
        self.measured(number, k + 1)
    }

    // The time, if the sign at a word is the end of the text.
    fn closed_at(&self, k: usize, sign: Sign, time: Time) -> Result<Time, TimeFault>
        requires { IsReadable time }
        ensures is { result ≡ closed_at self.now.text.now k sign time }
        ensures readable { IfOk result IsReadable }
    {
        match sign {
            Sign::End => Ok(time),
            _ => Err(TimeFault::Surplus(place(self.text, k))),
        }
    }

    // The time, if the text ends at a word.
    fn closed(&self, k: usize, time: Time) -> Result<Time, TimeFault>
        requires { IsReadable time }
        ensures is { result ≡ closed self.now.text.now k time }
        ensures readable { IfOk result IsReadable }
    {
        self.closed_at(k, self.sign(k), time)
    }

    // The first word: a number, and no tolerance before it.
    fn first_number(&self) -> Result<Fraction, TimeFault>
        ensures is { result ≡ first_number self.now.text.now (sign_at self.now.text.now 0) }
        ensures within { IfOk result (IsOfSize (10 ^ 9) (10 ^ 8)) }
    {
        match self.sign(0) {
            Sign::PlusMinus => Err(TimeFault::NoValue(place(self.text, 0))),
            _ => self.number(0),
        }
    }

    // Behind the first number: a second end, whose unit both have, or a unit.
    fn behind_number(&self, number: Fraction) -> Result<Time, TimeFault>
        requires { IsOfSize (10 ^ 9) (10 ^ 8) number }
        ensures is { result ≡ behind_number self.now.hertz self.now.text.now number
            (sign_at self.now.text.now 1) }
        ensures readable { IfOk result IsReadable }
    {
        match self.sign(1) {
            Sign::To => {
                let last = self.number(2)?;
                let one = self.unit(3)?;
                self.ends(in_units(number, one), in_units(last, one), 2)
            }
            _ => {
                let value = self.measured(number, 1)?;
                self.behind_value(value)
            }
        }
    }

    // Behind a number with its unit: nothing, a second end, or a tolerance.
    fn behind_value(&self, value: Fraction) -> Result<Time, TimeFault>
        requires { IsMeasured value }
        ensures is { result ≡ behind_value self.now.hertz self.now.text.now value
            (sign_at self.now.text.now 2) }
        ensures readable { IfOk result IsReadable }
    {
        match self.sign(2) {
            Sign::To => {
                let last = self.value(3)?;
                self.ends(value, last, 3)
            }
            Sign::PlusMinus => {
                let number = self.number(3)?;
                self.behind_tolerance(value, number)
            }
            sign => self.closed_at(2, sign, interval(value, value)),
        }
    }

    // Two ends, of which the second is at a word.
    fn ends(&self, first: Fraction, last: Fraction, k: usize) -> Result<Time, TimeFault>
        requires first { IsMeasured first }
        requires last { IsMeasured last }
        requires early { k < 10 }
        ensures is { result ≡ ends_at self.now.hertz self.now.text.now first last k }
        ensures readable { IfOk result IsReadable }
    {
        if first.is_at_most(last) {
            self.behind_ends(first, last, k + 2)
        } else {
            Err(TimeFault::Order(place(self.text, k)))
        }
    }

    // Behind the ends of an interval: nothing, or a step.
    fn behind_ends(&self, first: Fraction, last: Fraction, k: usize) -> Result<Time, TimeFault>
        requires first { IsMeasured first }
        requires last { IsMeasured last }
        requires ordered { IsAtMost first last }
        requires early { k < 20 }
        ensures is { result ≡ behind_ends self.now.hertz self.now.text.now first last k
            (sign_at self.now.text.now k) }
        ensures readable { IfOk result IsReadable }
    {
        match self.sign(k) {
            Sign::By => {
                let step = self.value(k + 1)?;
                self.stepped(first, last, k + 1, step)
            }
            sign => self.closed_at(k, sign, interval(first, last)),
        }
    }

    // A sweep by this step, which is at a word and is not 0.
    fn stepped(
        &self,
        first: Fraction,
        last: Fraction,
        k: usize,
        step: Fraction,
    ) -> Result<Time, TimeFault>
        requires first { IsMeasured first }
        requires last { IsMeasured last }
        requires step { IsMeasured step }
        requires ordered { IsAtMost first last }
        requires early { k < 30 }
        ensures is { result ≡ stepped self.now.text.now first last k step }
        ensures readable { IfOk result IsReadable }
    {
        if step.over == 0 {
            Err(TimeFault::NoStep(place(self.text, k)))
        } else {
            self.closed(k + 2, Time::Sweep(Sweep { first, last, step }))
        }
    }

    // Behind the number of a tolerance: a percent sign, or a unit.
    fn behind_tolerance(&self, value: Fraction, number: Fraction) -> Result<Time, TimeFault>
        requires value { IsMeasured value }
        requires number { IsOfSize (10 ^ 9) (10 ^ 8) number }
        ensures is { result ≡ behind_tolerance self.now.hertz self.now.text.now value number
            (sign_at self.now.text.now 4) }
        ensures readable { IfOk result IsReadable }
    {
        match self.sign(4) {
            Sign::Percent => self.behind_share(value, percent(number)),
            _ => {
                let margin = self.measured(number, 4)?;
                self.closed(5, tolerated(value, whole(0), margin))
            }
        }
    }

    // Behind a share: nothing, or a margin.
    fn behind_share(&self, value: Fraction, share: Fraction) -> Result<Time, TimeFault>
        requires value { IsMeasured value }
        requires share { IsOfSize (10 ^ 9) (10 ^ 10) share }
        ensures is { result ≡ behind_share self.now.hertz self.now.text.now value share
            (sign_at self.now.text.now 5) }
        ensures readable { IfOk result IsReadable }
    {
        match self.sign(5) {
            Sign::PlusMinus => {
                let margin = self.value(6)?;
                self.closed(8, tolerated(value, share, margin))
            }
            sign => self.closed_at(5, sign, tolerated(value, share, whole(0))),
        }
    }
}

// So many of a unit.
fn in_units(number: Fraction, one: Fraction) -> Fraction
    requires number { IsOfSize (10 ^ 9) (10 ^ 8) number }
    requires one { IsOfSize (10 ^ 6) (10 ^ 3) one }
    ensures is { result ≡ times number one }
    ensures within { IsMeasured result }
{
    number.times(one)
}

// A share in percent.
fn percent(number: Fraction) -> Fraction
    requires { IsOfSize (10 ^ 9) (10 ^ 8) number }
    ensures is { result ≡ percent number }
    ensures within { IsOfSize (10 ^ 9) (10 ^ 10) result }
{
    number.times(Fraction {
        over: 1,
        under: 100,
    })
}

// From the least to the greatest.
fn interval(least: Fraction, greatest: Fraction) -> Time
    requires least { IsMeasured least }
    requires greatest { IsMeasured greatest }
    requires ordered { IsAtMost least greatest }
    ensures is { result ≡ interval least greatest }
    ensures readable { IsReadable result }
{
    Time::Interval(Interval { least, greatest })
}

// The value, less and more its share and the margin.
fn tolerated(value: Fraction, share: Fraction, margin: Fraction) -> Time
    requires value { IsMeasured value }
    requires share { IsOfSize (10 ^ 9) (10 ^ 10) share }
    requires margin { IsMeasured margin }
    ensures is { result ≡ tolerated value share margin }
    ensures readable { IsReadable result }
{
    Time::Interval(Interval {
        least: least(value, share, margin),
        greatest: greatest(value, share, margin),
    })
}

// The least that the tolerance allows.
fn least(value: Fraction, share: Fraction, margin: Fraction) -> Fraction
    requires value { IsMeasured value }
    requires share { IsOfSize (10 ^ 9) (10 ^ 10) share }
    requires margin { IsMeasured margin }
    ensures is { result ≡ less (times value (less (whole 1) share)) margin }
    ensures within { IsEnd result }
{
    let kept = whole(1).less(share);
    let rest = scaled(value, kept);
    rest.less(margin)
}

// The greatest that the tolerance allows.
fn greatest(value: Fraction, share: Fraction, margin: Fraction) -> Fraction
    requires value { IsMeasured value }
    requires share { IsOfSize (10 ^ 9) (10 ^ 10) share }
    requires margin { IsMeasured margin }
    ensures is { result ≡ plus (times value (plus (whole 1) share)) margin }
    ensures within { IsEnd result }
{
    let grown = whole(1).plus(share);
    let more = scaled(value, grown);
    more.plus(margin)
}

// So many times the value.
fn scaled(value: Fraction, by: Fraction) -> Fraction
    requires value { IsMeasured value }
    requires by { IsOfSize (2 * 10 ^ 10) (10 ^ 10) by }
    ensures is { result ≡ times value by }
    ensures within { IsOfSize (2 * 10 ^ 25) (10 ^ 21) result }
{
    value.times(by)
}
