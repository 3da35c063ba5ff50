//! What the fields of a source say.

ghost use Rattle.std.specs.Prelude.{◌≡◌, ◌∷◌, ◌/◌, [], IfOk, map, slice_get};
ghost use Rattle.std.specs.Fmt.{decimal};
ghost use Rattle.draw_shapes.specs.Numbers.{milliseconds_said};
ghost use Rattle.model_line.specs.declared.script.What.TheVariants.{Element};
ghost use Rattle.file_records.specs.declared.map.source.Signal.TheVariants.{Shown};
ghost use Rattle.file_records.specs.{map.Recorders.recorder_values, map.Sources.channel_said};
ghost use Rattle.file_records.specs.tracks.Fields.{channel_text as text_of_channel};
ghost use Rattle.file_records.specs.tracks.Fields.{config_name as name_of_config};
ghost use Rattle.file_records.specs.tracks.Fields.{before_text as text_before, tick_fields as fields_of_tick};
ghost use Rattle.file_records.specs.tracks.Fields.{unseen as pulses_unseen};
ghost use Rattle.file_records.specs.tracks.Fields.{loss_fields as fields_of_loss, signal_fields as fields_of_signal};

use crate::map::{ChannelName, Recorder, Signal};
use crate::tracks::samples::Sampled;
use draw_shapes::milliseconds;
use itoa::Buffer;
use model_line::{Line, Memory, Place, What, element_word, name_of_terminal};
use std::alloc::Global;

/// What a signal is called: the terminal, what it saw or did, and for a lost channel the terminal
/// that sends.
#[derive(Drop)]
pub struct SignalFields {
    pub terminal: Vec<u8>,
    pub signal: Vec<u8>,
    pub from: Vec<u8>,
}

fn named(alloc: Global, terminal: &[u8], signal: &[u8], from: &[u8]) -> Result<SignalFields, Memory>
    ensures { IfOk result (λ f. f.terminal.items ∷ f.signal.items ∷ f.from.items ∷ []
        ≡ terminal.now ∷ signal.now ∷ from.now ∷ []) }
{
    Ok(SignalFields {
        terminal: Vec::from_slice(alloc, terminal)?,
        signal: Vec::from_slice(alloc, signal)?,
        from: Vec::from_slice(alloc, from)?,
    })
}

fn loss_fields(alloc: Global, line: &Line, channel: u32) -> Result<SignalFields, Memory>
    ensures { IfOk result (λ f. f.terminal.items ∷ f.signal.items ∷ f.from.items ∷ []
        ≡ fields_of_loss line.now (slice_get line.now.channels.items channel)) }
{
    match line.channels.get(channel as usize) {
        Some(channel) => named(
            alloc,
            name_of_terminal(line, channel.to),
            b"loss",
            name_of_terminal(line, channel.from),
        ),
        None => named(alloc, b"", b"loss", b""),
    }
}

fn element_fields(alloc: Global, line: &Line, place: Place) -> Result<SignalFields, Memory>
    ensures { IfOk result (λ f. f.terminal.items ∷ f.signal.items ∷ f.from.items ∷ []
        ≡ fields_of_signal line.now (Shown (Element place))) }
{
    let word = element_word(place.element);
    named(alloc, name_of_terminal(line, place.terminal), word, b"")
}

/// The fields of a signal.
pub fn signal_fields(alloc: Global, line: &Line, signal: Signal) -> Result<SignalFields, Memory>
    ensures { IfOk result (λ f. f.terminal.items ∷ f.signal.items ∷ f.from.items ∷ []
        ≡ fields_of_signal line.now signal) }
{
    match signal {
        Signal::Shown(What::Element(place)) => element_fields(alloc, line, place),
        Signal::Shown(What::Loss(channel)) => loss_fields(alloc, line, channel),
        Signal::Key(k) => named(alloc, name_of_terminal(line, k), b"key", b""),
        Signal::Trip(k) => named(alloc, name_of_terminal(line, k), b"trip", b""),
    }
}

/// A channel's id, or `#` and its number.
pub fn channel_text(alloc: Global, channel: &ChannelName) -> Result<Vec<u8>, Memory>
    ensures { IfOk result (λ v. v.items ≡ text_of_channel (channel_said channel.now)) }
{
    let mut text = Vec::new(alloc);
    match channel {
        ChannelName::Id(id) => text.extend_from_slice(id.as_slice())?,
        ChannelName::Number(n) => {
            text.extend_from_slice(b"#")?;
            text.extend_from_slice(Buffer::new().format(*n).as_bytes())?;
        }
    }
    Ok(text)
}

/// The name of the configuration of a recorder.
pub fn config_name(recorders: &[Recorder], i: u32) -> &[u8]
    ensures { result.now ≡ name_of_config (slice_get (map recorder_values recorders.now) i) }
{
    match recorders.get(i as usize) {
        Some(recorder) => recorder.config.as_slice(),
        None => b"",
    }
}

/// A tick, and the same in milliseconds.
#[derive(Drop)]
pub struct TickFields {
    pub tick: Vec<u8>,
    pub time: Vec<u8>,
}

/// The fields of a tick; empty where there is none.
pub fn tick_fields(alloc: Global, line: &Line, tick: Option<u32>) -> Result<TickFields, Memory>
    ensures { IfOk result (λ f. f.tick.items ∷ f.time.items ∷ [] ≡ fields_of_tick line.now tick) }
{
    let Some(t) = tick else {
        return Ok(TickFields {
            tick: Vec::new(alloc),
            time: Vec::new(alloc),
        });
    };
    Ok(TickFields {
        tick: Vec::from_slice(alloc, Buffer::new().format(t).as_bytes())?,
        time: milliseconds(alloc, t as u64 * line.tick_us as u64)?,
    })
}

// So many nanoseconds before tick 0.
fn before_text(alloc: Global, n: u64) -> Result<Vec<u8>, Memory>
    ensures { IfOk result (λ v. v.items ≡ text_before n) }
{
    if n / 1000 == 0 {
        return Ok(Vec::from_slice(alloc, b"0")?);
    }
    let time = milliseconds(alloc, n / 1000)?;
    let mut text = Vec::new(alloc);
    text.extend_from_slice(b"-")?;
    text.extend_from_slice(time.as_slice())?;
    Ok(text)
}

/// The samples of a channel: when the first is taken and when the last, and how many pulses no tick
/// sees.
#[derive(Drop)]
pub struct SampledFields {
    pub first: Vec<u8>,
    pub last: Vec<u8>,
    pub unseen: Vec<u8>,
}

/// The fields of the samples of a channel that changes so often between ticks.
pub fn sampled_fields(
    alloc: Global,
    sampled: Sampled,
    between_ticks: u64,
) -> Result<SampledFields, Memory>
    ensures { IfOk result (λ f. f.first.items ∷ f.last.items ∷ f.unseen.items ∷ []
        ≡ text_before sampled.before ∷ milliseconds_said (sampled.after / 1000)
        ∷ decimal (pulses_unseen sampled.changes between_ticks) ∷ []) }
{
    let unseen = sampled.changes.saturating_sub(between_ticks) / 2;
    Ok(SampledFields {
        first: before_text(alloc, sampled.before)?,
        last: milliseconds(alloc, sampled.after / 1000)?,
        unseen: Vec::from_slice(alloc, Buffer::new().format(unseen).as_bytes())?,
    })
}
