//! Why a record is refused, as the line on standard error says it.

ghost use Rattle.std.specs.Prelude.{[], ◌∷◌, ◌≡◌, Some, map};
ghost use Rattle.file_records.specs.map.Sources.{channel_said};
ghost use Rattle.file_records.specs.tracks.Tracks.{placed_values};
ghost use Rattle.call_records.specs.{Halts.Refuses, Halts.Tells, Lines.worded, Request.asked_values};
ghost use Rattle.call_records.specs.{Read.part_values, Read.record_values};
ghost use Rattle.call_records.specs.RecordFaults.{at as spot_at, channel_words, config_spot, config_words};
ghost use Rattle.call_records.specs.RecordFaults.{data_spot, data_words, gap_words, level_words};
ghost use Rattle.call_records.specs.RecordFaults.{order_words, plain_words, record_refusal, sample_line};
ghost use Rattle.call_records.specs.RecordFaults.{tick_words};

use crate::asked::Asked;
use crate::halt::Halt;
use crate::parts::{Part, RecordParts};
use crate::refusal::worded_halt;
use crate::told::{Spot, at_spot, of_sample};
use base_memory::Memory;
use base_text::pieces::text_of;
use file_comtrade::{ConfigFault, DataFault, DateOrder, Form, RecordFault, TickFault};
use file_records::map::{ChannelName, Signal};
use file_records::tracks::Placed;
use itoa::Buffer;
use model_line::{What, element_word};
use std::alloc::Global;

fn at(line: usize, field: usize) -> Spot
    ensures { result ≡ spot_at line field }
{
    Spot { line, field }
}

/// Where in a configuration it is wrong.
pub fn config_spot(why: ConfigFault) -> Spot
    ensures { result ≡ config_spot why }
{
    match why {
        ConfigFault::BadRevision => at(1, 2),
        ConfigFault::Counts => at(2, 0),
        ConfigFault::Time(n) => at(n, 1),
        ConfigFault::Absent(n)
        | ConfigFault::Analog(n)
        | ConfigFault::Digital(n)
        | ConfigFault::Rates(n)
        | ConfigFault::BadRate(n)
        | ConfigFault::Moment(n)
        | ConfigFault::Date(n)
        | ConfigFault::OtherOrder { line: n, order: _ }
        | ConfigFault::BadForm(n)
        | ConfigFault::Factor(n) => at(n, 0),
    }
}

/// What is wrong in a configuration, and what to write.
pub fn config_words(why: ConfigFault) -> &'static str
    ensures { result.now ≡ config_words why }
{
    match why {
        ConfigFault::Absent(_) => "the configuration ends before this line; take the whole file",
        ConfigFault::BadRevision => "the revision is none of 1991, 1999 and 2013",
        ConfigFault::Counts => {
            "not the numbers of all, analog and digital channels; write them as 12,8A,4D"
        }
        ConfigFault::Analog(_) => "an analog channel has at least 10 fields",
        ConfigFault::Digital(_) => "a digital channel has 3 fields or 5",
        ConfigFault::Rates(_) => "not a number of rates, at most 64",
        ConfigFault::BadRate(_) => "not a rate and a last sample behind the one before",
        ConfigFault::Moment(_) => "not a date and a time, with a comma between them",
        ConfigFault::Date(_) => "not a date, neither as dd/mm/yyyy nor as mm/dd/yyyy",
        ConfigFault::OtherOrder { line: _, order } => order_words(order),
        ConfigFault::Time(_) => "not a time as hh:mm:ss, with up to nine decimals",
        ConfigFault::BadForm(_) => "none of ASCII, BINARY, BINARY32 and FLOAT32",
        ConfigFault::Factor(_) => "not a factor of the stamps; write a number above 0, as 1",
    }
}

// A date only in this order.
fn order_words(order: DateOrder) -> &'static str
    ensures { result.now ≡ order_words order }
{
    match order {
        DateOrder::MonthFirst => {
            "no date as dd/mm/yyyy, but one as mm/dd/yyyy; write date = \"mdy\" in the map"
        }
        DateOrder::DayFirst => {
            "no date as mm/dd/yyyy, but one as dd/mm/yyyy; write date = \"dmy\" in the map"
        }
    }
}

// Where in a text of data it is wrong.
fn data_spot(why: DataFault) -> Spot
    ensures { result ≡ data_spot why }
{
    match why {
        DataFault::Absent(n)
        | DataFault::Surplus(n)
        | DataFault::Fields(n)
        | DataFault::Number(n) => at(n, 0),
        DataFault::Stamp(n)
        | DataFault::NoStamp(n)
        | DataFault::TooLate(n)
        | DataFault::Earlier(n) => at(n, 1),
        DataFault::Level {
            sample,
            channel: _,
            field,
        } => at(sample, field),
    }
}

// What is wrong in a sample of a part that is written so.
fn sample_halt(alloc: Global, part: &Part<'_>, form: Form, spot: Spot, words: &[&[u8]]) -> Halt
    ensures { Tells (sample_line (part_values part.now) form spot
        (map (λ piece. piece.now) words.now)) result }
{
    match form {
        Form::Ascii => at_spot(alloc, part, spot, words),
        Form::Binary | Form::Binary32 | Form::Float32 => {
            of_sample(alloc, part.name, spot.line, words)
        }
    }
}

fn level_halt(alloc: Global, part: &Part<'_>, form: Form, spot: Spot, channel: usize) -> Halt
    ensures { Tells (sample_line (part_values part.now) form spot (level_words channel)) result }
{
    let mut digits = Buffer::new();
    let channel = digits.format(channel).as_bytes();
    sample_halt(
        alloc,
        part,
        form,
        spot,
        &[b"digital channel ", channel, b" is neither 0 nor 1"],
    )
}

fn data_words(why: DataFault) -> &'static str
    ensures { result.now ≡ plain_words why }
{
    match why {
        DataFault::Absent(_) => {
            "the data end before all samples that the configuration says; take the whole file"
        }
        DataFault::Surplus(_) => {
            "there are more data than the samples that the configuration says"
        }
        DataFault::Fields(_) => "not as many fields as channels",
        DataFault::Number(_) => "the number is not one above that of the sample before",
        DataFault::Stamp(_) => "the stamp is not a number",
        DataFault::Level { .. } => "",
        DataFault::NoStamp(_) => "there is no stamp, and no rate",
        DataFault::TooLate(_) => "the time is 2^64 nanoseconds or more",
        DataFault::Earlier(_) => "the time is before that of the sample before",
    }
}

fn data_halt(alloc: Global, part: &Part<'_>, form: Form, why: DataFault) -> Halt
    ensures { Tells (sample_line (part_values part.now) form (data_spot why) (data_words why)) result }
{
    let spot = data_spot(why);
    match why {
        DataFault::Level { channel, .. } => level_halt(alloc, part, form, spot, channel),
        _ => sample_halt(alloc, part, form, spot, &[data_words(why).as_bytes()]),
    }
}

fn gap_halt(alloc: Global, asked: Asked<'_>, file: &[u8], from: u128, to: u128) -> Halt
    ensures { Refuses (worded asked.entry.name.now asked.entry.bytes.now (gap_words file.now from (Some to)))
        result }
{
    let mut digits = Buffer::new();
    let from = digits.format(from).as_bytes();
    let mut more = Buffer::new();
    let to = more.format(to).as_bytes();
    worded_halt(
        alloc,
        asked,
        b"start",
        &[
            file,
            b" has samples from tick ",
            from,
            b" to tick ",
            to,
            b" alone; write another start, or a shorter horizon in the line",
        ],
    )
}

fn tick_halt(alloc: Global, asked: Asked<'_>, file: &[u8], why: TickFault) -> Halt
    ensures { Refuses (worded asked.entry.name.now asked.entry.bytes.now (tick_words file.now why)) result }
{
    match why.to {
        None => worded_halt(
            alloc,
            asked,
            b"start",
            &[
                file,
                b" has all samples before tick 0; write an earlier start",
            ],
        ),
        Some(to) => gap_halt(alloc, asked, file, why.from, to),
    }
}

// The configuration does not name one channel so.
fn channel_halt<'a>(
    alloc: Global,
    asked: Asked<'_>,
    path: &[u8],
    file: &'a [u8],
    what: &'a [u8],
    channel: &'a ChannelName,
    write: &'a [u8],
) -> Halt
    ensures { Refuses (worded asked.entry.name.now asked.entry.bytes.now
        (channel_words file.now what.now (channel_said channel.now) write.now)) result }
{
    match channel {
        ChannelName::Id(id) => worded_halt(
            alloc,
            asked,
            path,
            &[
                file,
                what,
                b" digital channel with the id ",
                id.as_slice(),
                write,
            ],
        ),
        ChannelName::Number(n) => {
            let mut digits = Buffer::new();
            let n = digits.format(*n).as_bytes();
            worded_halt(
                alloc,
                asked,
                path,
                &[file, what, b" digital channel of number ", n, write],
            )
        }
    }
}

// The key in the map of what tells a signal.
fn key_of(signal: Signal) -> &'static [u8] {
    match signal {
        Signal::Key(_) => b"key",
        Signal::Trip(_) => b"trip",
        Signal::Shown(What::Loss(_)) => b"loss",
        Signal::Shown(What::Element(place)) => element_word(place.element),
    }
}

// Where in the map a source stands.
fn path_of(alloc: Global, source: &Placed<'_>) -> Result<Vec<u8>, Memory> {
    let mut digits = Buffer::new();
    let recorder = digits.format(source.recorder).as_bytes();
    text_of(
        alloc,
        &[b"recorder[", recorder, b"].", key_of(source.source.signal)],
    )
}

/// A recorder's record has no levels for the channel of this source.
pub fn record_halt(
    alloc: Global,
    asked: Asked<'_>,
    own: &RecordParts<'_>,
    source: &Placed<'_>,
    why: RecordFault,
) -> Halt
    ensures { Refuses (record_refusal (asked_values asked.entry) (record_values own.now)
        (placed_values source.now).source.channel why) result }
{
    let Ok(path) = path_of(alloc, source) else {
        return Halt::Memory;
    };
    let channel = &source.source.channel;
    match why {
        RecordFault::Config(why) => {
            let words = config_words(why).as_bytes();
            at_spot(alloc, &own.config, config_spot(why), &[words])
        }
        RecordFault::NoChannel => channel_halt(
            alloc,
            asked,
            path.as_slice(),
            own.config.name,
            b" has no",
            channel,
            b"; write the id of one that it has, or # and its number",
        ),
        RecordFault::ManyChannels => channel_halt(
            alloc,
            asked,
            path.as_slice(),
            own.config.name,
            b" has more than one",
            channel,
            b"; write # and the number of one",
        ),
        RecordFault::Data { form, why } => data_halt(alloc, &own.samples, form, why),
        RecordFault::Ticks(why) => tick_halt(alloc, asked, own.samples.name, why),
    }
}
