//! The declared intervals.

ghost use Rattle.std.specs.Prelude.{◌≡◌, ◌≤◌, ◌<◌};
ghost use Rattle.model_line.specs.Parameters.{param_count, channel_count, delay_param};
ghost use Rattle.model_line.specs.Parameters.{declared_ends};
ghost use Rattle.model_logic.specs.{Names.HasTime, Choice.ends_by};

use model_line::Line;
use model_logic::Time;
use run_signal::Within;

/// The interval of a pickup or dropout.
pub fn declared_time(line: &Line, time: Time) -> Within
    requires { HasTime line.now time }
    ensures { result ≡ ends_by (declared_ends line.now) time }
{
    match time {
        Time::Zero => Within::new(0, 0),
        Time::Param(i) => declared_param(line, i),
    }
}

/// The interval of a channel's delay.
pub fn declared_delay(line: &Line, channel: u32) -> Within
    requires { channel < channel_count line.now }
    ensures is { result ≡ declared_ends line.now (delay_param line.now channel) }
    ensures later { 1 ≤ result.least }
{
    declared_param(line, line.delay_of(channel))
}

/// The interval of a parameter.
pub fn declared_param(line: &Line, param: u32) -> Within
    requires { param < param_count line.now }
    ensures { result ≡ declared_ends line.now param }
{
    Within::new(line.least(param), line.greatest(param))
}
