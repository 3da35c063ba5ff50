//! What single lines of a configuration say.

ghost use Rattle.std.specs.Prelude.{◌≡◌, ◌<◌, ◌^◌, IfOk, IfSome, option_map};
ghost use Rattle.base_memory.specs.Gives.{Gives};
ghost use Rattle.file_comtrade.specs.Config.{line_at};
ghost use Rattle.file_comtrade.specs.ConfigLines.{revision_named, revision_in, counted, counts_in};
ghost use Rattle.file_comtrade.specs.ConfigLines.{id_in, rate_in, moment_in, form_named, form_in};
ghost use Rattle.file_comtrade.specs.ConfigLines.{above_0, factor_in, natural_in, order_of, unit_by};
ghost use Rattle.file_comtrade.specs.ConfigLines.{unit_in};
ghost use Rattle.file_comtrade.specs.Views.{texts, counts_of_channels};

use crate::calendar::moment;
use crate::config::{DateOrder, Form, Rate, Revision, StampUnit};
use crate::fault::ConfigFault;
use crate::number::{decimals, natural, scaled};
use crate::text::fields;
use base_memory::Stopped;
use base_records::{is, is_nothing};
use std::alloc::{AllocError, Global};

/// The fields of the line with this index.
#[tactic(auto, unfolding(crate::specs::Config::line_at))]
pub fn line_at<'a>(
    alloc: Global,
    lines: &[&'a [u8]],
    k: usize,
) -> Result<Vec<&'a [u8]>, Stopped<ConfigFault>>
    requires { k < 2 ^ 40 }
    ensures { Gives (λ v. texts v.items) result (line_at (texts lines.now) k) }
{
    match lines.get(k) {
        Some(line) => Ok(fields(alloc, line)?),
        None => Err(Stopped::Fault(ConfigFault::Absent(k + 1))),
    }
}

fn revision_named(text: &[u8]) -> Option<Revision>
    ensures { result ≡ revision_named text.now }
{
    if is(text, b"") {
        Some(Revision::Of1991)
    } else if is(text, b"1991") {
        Some(Revision::Of1991)
    } else if is(text, b"1999") {
        Some(Revision::Of1999)
    } else if is(text, b"2013") {
        Some(Revision::Of2013)
    } else {
        None
    }
}

/// The revision of a record, by its first line.
pub fn revision_in(line: &[&[u8]]) -> Option<Revision>
    ensures { result ≡ revision_in (texts line.now) }
{
    match line {
        [_, _, revision, ..] => revision_named(revision),
        _ => Some(Revision::Of1991),
    }
}

/// A number before a letter.
#[tactic(auto, unfolding(crate::specs::ConfigLines::counted))]
fn counted(letter: u8, bytes: &[u8]) -> Option<u32>
    requires { letter < 128 }
    ensures { result ≡ counted letter bytes.now }
{
    let count = bytes.len();
    if 0 < count && (bytes[count - 1] == letter || bytes[count - 1] == letter + 32) {
        natural(&bytes[..count - 1])
    } else {
        None
    }
}

/// How many channels there are.
#[derive(Clone, Copy)]
pub struct Channels {
    pub analog: u32,
    pub digital: u32,
}

/// The numbers of the channels, by the second line.
#[tactic(auto, unfolding(crate::specs::ConfigLines::counts_in))]
pub fn counts_in(line: &[&[u8]]) -> Option<Channels>
    ensures { option_map counts_of_channels result ≡ counts_in (texts line.now) }
{
    match line {
        [all, n, m] => {
            let all = natural(all)?;
            let analog = counted(b'A', n)?;
            let digital = counted(b'D', m)?;
            if u64::from(all) == u64::from(analog) + u64::from(digital) {
                Some(Channels { analog, digital })
            } else {
                None
            }
        }
        _ => None,
    }
}

/// The id of a digital channel, by its line.
pub fn id_in<'a>(line: &[&'a [u8]]) -> Option<&'a [u8]>
    ensures { option_map (λ id. id.now) result ≡ id_in (texts line.now) }
{
    match line {
        [_, id, _] => Some(*id),
        [_, id, _, _, _] => Some(*id),
        [_, id, _, _, _, last] => { if is_nothing(last) { Some(*id) } else { None } }
        _ => None,
    }
}

/// A rate and its last sample, by their line.
#[tactic(auto, unfolding(crate::specs::ConfigLines::rate_in))]
pub fn rate_in(line: &[&[u8]]) -> Option<Rate>
    ensures { result ≡ rate_in (texts line.now) }
{
    match line {
        [rate, last] => {
            let microhertz = scaled(rate, 6)?;
            let last = natural(last)?;
            Some(Rate { microhertz, last })
        }
        _ => None,
    }
}

/// The order in the dates of a record, where a recorder may have its own.
pub fn order_of(dates: Option<DateOrder>, revision: Revision) -> DateOrder
    ensures { result ≡ order_of dates revision }
{
    match dates {
        Some(order) => order,
        None => match revision {
            Revision::Of1991 => DateOrder::MonthFirst,
            Revision::Of1999 | Revision::Of2013 => DateOrder::DayFirst,
        },
    }
}

/// The instant that a line says.
#[tactic(auto, unfolding(crate::specs::ConfigLines::moment_in))]
pub fn moment_in(order: DateOrder, line: &[&[u8]]) -> Option<u128>
    ensures value { result ≡ moment_in order (texts line.now) }
    ensures early { IfSome result (λ n. n < 2 ^ 80) }
{
    match line {
        [date, time] => moment(order, date, time),
        _ => None,
    }
}

fn unit_by(revision: Revision, decimals: usize) -> StampUnit
    ensures { result ≡ unit_by revision decimals }
{
    match revision {
        Revision::Of1991 | Revision::Of1999 => StampUnit::Microsecond,
        Revision::Of2013 => {
            if decimals == 9 {
                StampUnit::Nanosecond
            } else {
                StampUnit::Microsecond
            }
        }
    }
}

/// What a stamp counts, by the line of the first sample's time.
#[tactic(auto, unfolding(crate::specs::ConfigLines::unit_in))]
pub fn unit_in(revision: Revision, line: &[&[u8]]) -> StampUnit
    ensures { result ≡ unit_in revision (texts line.now) }
{
    match line {
        [_, time] => unit_by(revision, decimals(time)),
        _ => StampUnit::Microsecond,
    }
}

/// The number that stands alone in a line.
pub fn natural_in(line: &[&[u8]]) -> Option<u32>
    ensures { result ≡ natural_in (texts line.now) }
{
    match line {
        [n] => natural(n),
        _ => None,
    }
}

fn above_0(factor: Option<u64>) -> Option<u64>
    ensures { result ≡ above_0 factor }
{
    match factor {
        Some(n) if 0 < n => factor,
        _ => None,
    }
}

/// The factor of the stamps, in billionths, by its line; it is not 0.
pub fn factor_in(line: &[&[u8]]) -> Option<u64>
    ensures { result ≡ factor_in (texts line.now) }
{
    match line {
        [factor] => above_0(scaled(factor, 9)),
        _ => None,
    }
}

/// The form of the data, by its line.
pub fn form_in(alloc: Global, line: &[&[u8]]) -> Result<Option<Form>, AllocError>
    ensures { IfOk result (λ form. form ≡ form_in (texts line.now)) }
{
    match line {
        [form] => {
            let word = form.to_ascii_lowercase(alloc)?;
            Ok(form_named(word.as_slice()))
        }
        _ => Ok(None),
    }
}

fn form_named(word: &[u8]) -> Option<Form>
    ensures { result ≡ form_named word.now }
{
    if is(word, b"ascii") {
        Some(Form::Ascii)
    } else if is(word, b"binary") {
        Some(Form::Binary)
    } else if is(word, b"binary32") {
        Some(Form::Binary32)
    } else if is(word, b"float32") {
        Some(Form::Float32)
    } else {
        None
    }
}
