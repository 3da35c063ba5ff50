//! How many settings a terminal and a channel have, and the place of each.

ghost use Rattle.std.specs.Prelude.{◌≡◌, ◌≤◌, ◌<◌, length, IfSome};
ghost use Rattle.std.specs.List.{flat_map};
ghost use Rattle.model_line.specs.Settings.{terminal_settings, channel_settings, setting_place};
ghost use Rattle.model_line.specs.Settings.{settings_of_terminals, line_settings};
ghost use Rattle.model_line.specs.Intervals.{delay_number_of};

use crate::line::{Channel, Scheme, Setting, Terminal};
use crate::settings::{groups_of_channel, groups_of_terminal};

/// How many parameters a line of these has.
pub fn param_count(scheme: Scheme, terminals: &[Terminal], channels: &[Channel]) -> usize
    requires terminals { length terminals.now ≤ 3 }
    requires channels { length channels.now ≤ 6 }
    ensures { result ≡ length (line_settings scheme terminals.now channels.now) }
{
    count_before(scheme, terminals) + channels.len() * count_of_channel(scheme)
}

/// The number of a channel's delay among the parameters of a line of these.
pub fn delay_index(
    scheme: Scheme,
    terminals: &[Terminal],
    channels: &[Channel],
    channel: usize,
) -> usize
    requires terminals { length terminals.now ≤ 3 }
    requires channels { length channels.now ≤ 6 }
    requires exists { channel < length channels.now }
    ensures number { result ≡ delay_number_of scheme terminals.now channels.now channel }
    ensures within { result < length (line_settings scheme terminals.now channels.now) }
{
    count_before(scheme, terminals) + channel * count_of_channel(scheme)
}

// How many parameters a terminal has.
fn count_of_terminal(scheme: Scheme, terminal: &Terminal) -> usize
    ensures count { result ≡ length (terminal_settings scheme terminal.now) }
    ensures bound { result ≤ 15 }
{
    count_of(&groups_of_terminal(scheme, terminal))
}

// How many parameters a channel has.
pub fn count_of_channel(scheme: Scheme) -> usize
    ensures count { result ≡ length (channel_settings scheme) }
    ensures bound { result ≤ 4 }
{
    count_of(&groups_of_channel(scheme))
}

// How many parameters these terminals have.
pub fn count_before(scheme: Scheme, terminals: &[Terminal]) -> usize
    requires { length terminals.now ≤ 3 }
    ensures count { result ≡ length (settings_of_terminals scheme 0 terminals.now) }
    ensures bound { result ≤ 45 }
{
    let mut count = 0;
    for terminal in terminals {
        count += count_of_terminal(scheme, terminal);
    }
    count
}

// How many settings groups have.
fn count_of(groups: &[&[Setting]]) -> usize
    requires { length (flat_map (λ group. group.now) groups.now) ≤ 20 }
    ensures { result ≡ length (flat_map (λ group. group.now) groups.now) }
{
    let mut count = 0;
    for group in groups {
        count += group.len();
    }
    count
}

// The place of a setting in groups.
pub fn place_in(groups: &[&[Setting]], setting: Setting) -> Option<usize>
    requires { length (flat_map (λ group. group.now) groups.now) ≤ 20 }
    ensures place { result ≡ setting_place (flat_map (λ group. group.now) groups.now) setting }
    ensures bound { IfSome result (λ i. i ≤ 20) }
{
    let mut before = 0;
    for group in groups {
        match place(group, setting) {
            Some(i) => return Some(before + i),
            None => before += group.len(),
        }
    }
    None
}

fn place(group: &[Setting], setting: Setting) -> Option<usize>
    ensures { result ≡ setting_place group.now setting }
{
    group.iter().position(|own| *own == setting)
}
