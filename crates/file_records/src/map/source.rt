//! Signals, and the digital channels that tell them.

use model_line::What;

/// What a digital channel tells. Terminals go by their place in the line.
#[derive(Clone, Copy, PartialEq, Eq)]
pub enum Signal {
    /// An element is seen, or a channel is lost.
    Shown(What),
    /// The terminal keys.
    Key(u32),
    /// The terminal trips.
    Trip(u32),
}

/// A digital channel of a record.
#[derive(Drop)]
pub enum ChannelName {
    /// By its id.
    Id(Vec<u8>),
    /// By its number among the digital channels, the first being 1.
    Number(u32),
}

/// A digital channel that tells a signal.
#[derive(Drop)]
pub struct Source {
    pub signal: Signal,
    pub channel: ChannelName,
    /// Whether the signal is on where the channel is off.
    pub inverted: bool,
}

/// The signals that a recorder tells, and what tells them: a signal is on where one of its sources
/// is. One that is told and has no source is known to be off.
#[derive(Drop)]
pub struct Signals {
    pub told: Vec<Signal>,
    pub sources: Vec<Source>,
}
