//! The settings of a terminal and of a channel, in order, and their keys in a line file.

ghost use Rattle.std.specs.Prelude.{◌≡◌, ◌≤◌, map, length};
ghost use Rattle.std.specs.List.{flat_map};
ghost use Rattle.model_line.specs.Settings.{setting_keys, table_key, time_key, guard_settings};
ghost use Rattle.model_line.specs.Settings.{weak_settings, scheme_settings, receiver_settings};
ghost use Rattle.model_line.specs.Settings.{terminal_groups, channel_groups, terminal_settings};
ghost use Rattle.model_line.specs.Settings.{channel_settings};

use crate::line::{Scheme, Setting, Terminal};

/// The pickup and dropout of each element.
pub const ZONE1_SETTINGS: &[Setting] = &[Setting::Z1Pickup, Setting::Z1Dropout];

pub const ZONE2_SETTINGS: &[Setting] = &[Setting::Z2Pickup, Setting::Z2Dropout];

pub const REVERSE_SETTINGS: &[Setting] = &[Setting::RvPickup, Setting::RvDropout];

pub const UNDERVOLTAGE_SETTINGS: &[Setting] = &[Setting::UvPickup, Setting::UvDropout];

impl Setting {
    // The key of the table, and the key there.
    fn keys(self) -> (&'static str, &'static str)
        ensures keys { (result.0.now, result.1.now) ≡ setting_keys self }
        ensures short { (length result.0.now ≤ 8) × (length result.1.now ≤ 8) }
    {
        match self {
            Setting::Z1Pickup => ("z1", "pickup"),
            Setting::Z1Dropout => ("z1", "dropout"),
            Setting::Z2Pickup => ("z2", "pickup"),
            Setting::Z2Dropout => ("z2", "dropout"),
            Setting::RvPickup => ("rv", "pickup"),
            Setting::RvDropout => ("rv", "dropout"),
            Setting::UvPickup => ("uv", "pickup"),
            Setting::UvDropout => ("uv", "dropout"),
            Setting::ReversalPickup => ("reversal", "pickup"),
            Setting::ReversalDropout => ("reversal", "dropout"),
            Setting::EchoBlock => ("echo", "block"),
            Setting::EchoPickup => ("echo", "pickup"),
            Setting::EchoPulse => ("echo", "pulse"),
            Setting::BlockCarry => ("block", "carry"),
            Setting::BlockCoord => ("block", "coord"),
            Setting::TransferSecurity => ("transfer", "security"),
            Setting::Delay => ("", "delay"),
            Setting::UnblockPickup => ("unblock", "pickup"),
            Setting::UnblockWindow => ("unblock", "window"),
            Setting::UnblockRestore => ("unblock", "restore"),
        }
    }

    /// The key of the table in which a line file has the setting, as `z1`; none for a channel's
    /// delay.
    pub fn table(self) -> &'static str
        ensures key { result.now ≡ table_key self }
        ensures short { length result.now ≤ 8 }
    {
        self.keys().0
    }

    /// The key of the setting there, as `pickup`.
    pub fn key(self) -> &'static str
        ensures key { result.now ≡ time_key self }
        ensures short { length result.now ≤ 8 }
    {
        self.keys().1
    }
}

/// What a guarded terminal has besides.
pub fn guard_settings(guard: bool) -> &'static [Setting]
    ensures { result.now ≡ guard_settings guard }
{
    if guard {
        &[Setting::ReversalPickup, Setting::ReversalDropout]
    } else {
        &[]
    }
}

/// What a weak terminal has besides.
pub fn weak_settings(weak: bool) -> &'static [Setting]
    ensures { result.now ≡ weak_settings weak }
{
    if weak {
        &[Setting::EchoBlock, Setting::EchoPickup, Setting::EchoPulse]
    } else {
        &[]
    }
}

/// What a terminal has besides in a blocking or a transfer trip scheme.
pub fn scheme_settings(scheme: Scheme) -> &'static [Setting]
    ensures { result.now ≡ scheme_settings scheme }
{
    match scheme {
        Scheme::Dcb => &[Setting::BlockCarry, Setting::BlockCoord],
        Scheme::Dtt => &[Setting::TransferSecurity],
        Scheme::Pott | Scheme::Putt | Scheme::Dcub => &[],
    }
}

/// What a channel has besides its delay in an unblocking scheme.
pub fn receiver_settings(scheme: Scheme) -> &'static [Setting]
    ensures { result.now ≡ receiver_settings scheme }
{
    match scheme {
        Scheme::Dcub => &[
            Setting::UnblockPickup,
            Setting::UnblockWindow,
            Setting::UnblockRestore,
        ],
        Scheme::Pott | Scheme::Putt | Scheme::Dcb | Scheme::Dtt => &[],
    }
}

/// The settings of a terminal, in the order of its parameters, group by group: one for each table.
pub fn groups_of_terminal(scheme: Scheme, terminal: &Terminal) -> [&'static [Setting]; 7]
    ensures groups { map (λ group. group.now) result ≡ terminal_groups scheme terminal.now }
    ensures all { flat_map (λ group. group.now) result ≡ terminal_settings scheme terminal.now }
{
    [
        ZONE1_SETTINGS,
        ZONE2_SETTINGS,
        REVERSE_SETTINGS,
        UNDERVOLTAGE_SETTINGS,
        guard_settings(terminal.guard),
        weak_settings(terminal.weak),
        scheme_settings(scheme),
    ]
}

/// The settings of a channel, in the order of its parameters: its delay, and what it has besides.
pub fn groups_of_channel(scheme: Scheme) -> [&'static [Setting]; 2]
    ensures groups { map (λ group. group.now) result ≡ channel_groups scheme }
    ensures all { flat_map (λ group. group.now) result ≡ channel_settings scheme }
{
    [&[Setting::Delay], receiver_settings(scheme)]
}
