//! A line: its terminals, its channels and the intervals of its parameters.

ghost use Rattle.std.specs.Prelude.{◌≡◌, ◌≤◌, length, map, IsTrue};
ghost use Rattle.model_line.specs.Terminals.{are_plain_names, NamesDiffer, flags_fit};
ghost use Rattle.model_line.specs.Intervals.{leasts, greatests, AreIntervals, LeastDelaysFromOne};
ghost use Rattle.model_line.specs.ParamNames.{param_name};
ghost use Rattle.model_line.specs.{Channels.AreChannels, Settings.line_settings};

use crate::name::Name;

/// The pilot schemes: permissive overreaching and underreaching transfer trip, directional
/// comparison blocking and unblocking, direct transfer trip. IEEE C37.113 has the names of all, and
/// the outlines of the first three; the other two are after practice alone.
#[derive(Clone, Copy)]
pub enum Scheme {
    Pott,
    Putt,
    Dcb,
    Dcub,
    Dtt,
}

/// An end of the line. A weak terminal echoes a permission and may trip on it; a guarded one
/// holds back after a current reversal.
#[derive(Clone, Copy)]
pub struct Terminal {
    pub name: Name,
    pub weak: bool,
    pub guard: bool,
}

/// What carries the key of one terminal to another. Both are places in the list of terminals.
#[derive(Clone, Copy)]
pub struct Channel {
    pub from: u32,
    pub to: u32,
}

/// A parameter: any whole number of ticks from `least` to `greatest`.
#[derive(Clone, Copy)]
pub struct Param {
    pub name: Name,
    pub least: u32,
    pub greatest: u32,
}

/// Whose a parameter is, by its place in the list of terminals or of channels.
#[derive(Clone, Copy, PartialEq, Eq)]
pub enum Owner {
    Terminal(u32),
    Channel(u32),
}

/// What a parameter sets. The first eight are the pickup and dropout of a terminal's elements.
#[derive(Clone, Copy, PartialEq, Eq)]
pub enum Setting {
    Z1Pickup,
    Z1Dropout,
    Z2Pickup,
    Z2Dropout,
    RvPickup,
    RvDropout,
    UvPickup,
    UvDropout,
    /// Of a guarded terminal: how long the reverse element is on before the guard holds.
    ReversalPickup,
    /// Of a guarded terminal: how long the guard holds after the reverse element is off.
    ReversalDropout,
    /// Of a weak terminal: how long its own elements must have been off before it echoes.
    EchoBlock,
    /// Of a weak terminal: how long the permission is received before it echoes.
    EchoPickup,
    /// Of a weak terminal: how long it echoes.
    EchoPulse,
    /// In blocking: how long the blocking signal is sent on.
    BlockCarry,
    /// In blocking: the coordination delay.
    BlockCoord,
    /// In direct transfer trip: how long the signal is received before it trips.
    TransferSecurity,
    /// Of a channel: from the transmitter's command input to the receiver's command output.
    Delay,
    /// Of a channel in unblocking: how long signal and guard are lost before the window opens.
    UnblockPickup,
    /// Of a channel in unblocking: when the window closes, counted from the loss.
    UnblockWindow,
    /// Of a channel in unblocking: how long the guard is back before the lockout ends.
    UnblockRestore,
}

/// A line. Each list is in the order of its file, and the place in it is the number of a terminal,
/// channel or parameter. The ghost fields say what every line keeps.
#[derive(Drop)]
pub struct Line {
    /// Microseconds in a tick, 1 to 1,000,000.
    pub tick_us: u32,
    /// How many ticks are played, 1 to 4,000.
    pub horizon: u32,
    pub scheme: Scheme,
    /// Whether zone 1 trips by itself.
    pub zone1_trip: bool,
    /// 2 or 3, each with a plain name of its own.
    pub terminals: Vec<Terminal>,
    /// One for each ordered pair of distinct terminals.
    pub channels: Vec<Channel>,
    /// The terminals' and then the channels' settings; at most 63. A time is at most 4,000 ticks.
    pub params: Vec<Param>,
    pub ghost tick_in_range: { (1 ≤ tick_us) × (tick_us ≤ 1000000) },
    pub ghost horizon_in_range: { (1 ≤ horizon) × (horizon ≤ 4000) },
    pub ghost two_or_three: { (2 ≤ length terminals.items) × (length terminals.items ≤ 3) },
    pub ghost plain_names: { IsTrue (are_plain_names terminals.items) },
    pub ghost names_once: { NamesDiffer terminals.items (length terminals.items) },
    pub ghost flags_by_scheme: { IsTrue (flags_fit scheme terminals.items) },
    pub ghost pairs_once: { AreChannels (length terminals.items) channels.items },
    pub ghost param_names: { map (λ p. p.name) params.items
        ≡ map (param_name terminals.items channels.items)
        (line_settings scheme terminals.items channels.items) },
    pub ghost ends_in_range: { AreIntervals (leasts params.items) (greatests params.items) },
    pub ghost delays_from_one: { LeastDelaysFromOne scheme terminals.items channels.items
        (leasts params.items) },
}
