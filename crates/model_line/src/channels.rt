//! The channel between two terminals, and whether each pair has one.

ghost use Rattle.std.specs.Prelude.{◌≡◌, ◌≤◌, ◌<◌, ◌*◌, ◌-◌, ◌↔◌, length, IsTrue, slice_index_or};
ghost use Rattle.model_line.specs.Channels.{channel_number, AreChannels, IsChannel};
ghost use Rattle.model_line.specs.Channels.{AreChannelsBelow, AreFoundBelow};

use crate::line::Channel;

// The number of the channel from one terminal to another.
pub fn find_channel(channels: &[Channel], from: u32, to: u32) -> Option<u32>
    requires { length channels.now ≤ 6 }
    ensures { result ≡ channel_number channels.now from to }
{
    for (c, channel) in channels.iter().enumerate() {
        if channel.from == from && channel.to == to {
            return Some(c as u32);
        }
    }
    None
}

/// Whether the channels are each ordered pair of `count` terminals, once.
pub fn are_channels(count: u32, channels: &[Channel]) -> bool
    requires { (2 ≤ count) × (count ≤ 3) }
    ensures { IsTrue result ↔ AreChannels count channels.now }
{
    if !are_enough(count, channels) {
        return false;
    }
    if !are_pairs(count, channels) {
        return false;
    }
    are_found(count, channels)
}

fn are_enough(count: u32, channels: &[Channel]) -> bool
    requires { (2 ≤ count) × (count ≤ 3) }
    ensures { IsTrue result ↔ (length channels.now ≡ count * (count - 1)) }
{
    if count == 2 {
        channels.len() == 2
    } else {
        channels.len() == 6
    }
}

fn are_pairs(count: u32, channels: &[Channel]) -> bool
    requires { length channels.now ≤ 6 }
    ensures { IsTrue result ↔ AreChannelsBelow count channels.now (length channels.now) }
{
    for (c, channel) in channels.iter().enumerate() {
        if !is_pair(count, channels, c, channel) {
            return false;
        }
    }
    true
}

fn is_pair(count: u32, channels: &[Channel], c: usize, channel: &Channel) -> bool
    requires few { length channels.now ≤ 6 }
    requires within { c < length channels.now }
    requires is { channel.now ≡ slice_index_or channels.now c channel.now }
    ensures { IsTrue result ↔ IsChannel count channels.now c }
{
    channel.from < count
        && channel.to < count
        && channel.from != channel.to
        && find_channel(channels, channel.from, channel.to) == Some(c as u32)
}

fn are_found(count: u32, channels: &[Channel]) -> bool
    requires { length channels.now ≤ 6 }
    ensures { IsTrue result ↔ AreFoundBelow count channels.now count }
{
    for j in 0..count {
        for k in 0..count {
            if j != k && find_channel(channels, j, k).is_none() {
                return false;
            }
        }
    }
    true
}
