//! The line's parameters and channels, as trees name them.

ghost use Rattle.std.specs.Prelude.{◌≡◌, ◌<◌};
ghost use Rattle.model_line.specs.Parameters.{terminal_count, channel_count, IsOwner};
ghost use Rattle.model_logic.specs.Received.{channel_to as channel_number_to};
ghost use Rattle.model_logic.specs.{Unblocking.channel_setting, Names.HasTime, Elements.setting_of};
ghost use Rattle.model_logic.specs.Permissive.{terminal_setting};

use crate::time::Time;
use model_line::laws::parameters_are_numbered;
use model_line::{Line, Owner, Setting};

/// A setting of a terminal, as a time.
#[tactic(auto, unfolding(crate::specs::Permissive::terminal_setting))]
pub fn terminal_time(line: &Line, terminal: u32, setting: Setting) -> Time
    requires exists { terminal < terminal_count line.now }
    ensures is { result ≡ terminal_setting line.now terminal setting }
    ensures has { HasTime line.now result }
{
    time_of(line, Owner::Terminal(terminal), setting)
}

/// A setting of the channel to a terminal from another, as a time.
#[tactic(auto, unfolding(crate::specs::Unblocking::channel_setting))]
pub fn channel_time(line: &Line, terminal: u32, from: u32, setting: Setting) -> Time
    ensures is { result ≡ channel_setting line.now terminal from setting }
    ensures has { HasTime line.now result }
{
    time_of(
        line,
        Owner::Channel(channel_to(line, terminal, from)),
        setting,
    )
}

/// The number of the channel to a terminal from another. It is 0 where there is none.
#[tactic(auto, unfolding(crate::specs::Received::channel_to))]
pub fn channel_to(line: &Line, terminal: u32, from: u32) -> u32
    ensures is { result ≡ channel_number_to line.now terminal from }
    ensures exists { result < channel_count line.now }
{
    line.channel_of(from, terminal).unwrap_or(0)
}

/// A setting of a terminal or a channel, as a time.
#[tactic(auto, unfolding(crate::specs::Elements::setting_of))]
pub fn time_of(line: &Line, owner: Owner, setting: Setting) -> Time
    requires exists { IsOwner line.now owner }
    ensures is { result ≡ setting_of line.now owner setting }
    ensures has { HasTime line.now result }
{
    parameters_are_numbered();
    Time::Param(line.param_of(owner, setting).unwrap_or(0))
}
