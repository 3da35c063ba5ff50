//! The number of a parameter and of a channel.

ghost use Rattle.std.specs.Prelude.{◌≡◌, ◌≢◌, ◌≤◌, ◌<◌, ◌+◌, ◌↔◌, length, IsSome, IfSome};
ghost use Rattle.std.specs.Prelude.{option_map};
ghost use Rattle.model_line.specs.Channels.{channel_number, from_of, to_of};
ghost use Rattle.model_line.specs.Parameters.{param_number, IsOwner, channel_count, param_count};
ghost use Rattle.model_line.specs.Parameters.{delay_param, is_delay};

use crate::channels::find_channel;
use crate::line::{Line, Owner, Param, Setting};
use crate::setting_places::{count_before, count_of_channel, place_in};
use crate::settings::{groups_of_channel, groups_of_terminal};

impl Line {
    /// The number of a parameter, where the line has it.
    pub fn param_of(&self, owner: Owner, setting: Setting) -> Option<u32>
        requires { IsOwner self.now owner }
        ensures { result ≡ param_number self.now owner setting }
    {
        match owner {
            Owner::Terminal(k) => {
                let before = count_before(self.scheme, &self.terminals[..k as usize]);
                let groups = groups_of_terminal(self.scheme, &self.terminals[k as usize]);
                after(before, place_in(&groups, setting))
            }
            Owner::Channel(c) => {
                let before = count_before(self.scheme, &self.terminals);
                let before = before + c as usize * count_of_channel(self.scheme);
                after(before, place_in(&groups_of_channel(self.scheme), setting))
            }
        }
    }

    /// The number of a channel's delay.
    pub fn delay_of(&self, channel: u32) -> u32
        requires { channel < channel_count self.now }
        ensures number { result ≡ delay_param self.now channel }
        ensures within { result < param_count self.now }
    {
        self.param_of(Owner::Channel(channel), Setting::Delay)
            .unwrap_or(0)
    }

    /// Whether a parameter is the delay of a channel.
    #[tactic(auto, unfolding(crate::specs::Parameters::is_delay))]
    pub fn is_delay(&self, param: u32) -> bool
        ensures { result ≡ is_delay self.now param }
    {
        for channel in 0..self.channels.len() {
            if self.delay_of(channel as u32) == param {
                return true;
            }
        }
        false
    }

    /// How many parameters the line has: at most 63, in unblocking with three terminals, each weak
    /// and guarded.
    pub fn param_count(&self) -> u32
        ensures count { result ≡ length self.now.params.items }
        ensures few { result ≤ 63 }
    {
        let params: &[Param] = &self.params;
        params.len() as u32
    }

    /// The number of the channel from one terminal to another.
    pub fn channel_of(&self, from: u32, to: u32) -> Option<u32>
        ensures number { result ≡ channel_number self.now.channels.items from to }
        ensures some { IsSome result
            ↔ ((from ≢ to)
            × (from < length self.now.terminals.items)
            × (to < length self.now.terminals.items)) }
        ensures ends { IfSome result (λ c. (c < length self.now.channels.items)
            × (from_of self.now.channels.items c ≡ from)
            × (to_of self.now.channels.items c ≡ to)) }
    {
        find_channel(&self.channels, from, to)
    }
}

fn after(before: usize, place: Option<usize>) -> Option<u32>
    requires few { before ≤ 100 }
    requires small { IfSome place (λ i. i ≤ 20) }
    ensures { result ≡ option_map (λ i. before + i) place }
{
    place.map(|i| (before + i) as u32)
}
