//! The delay of what arrives.

ghost use Rattle.std.specs.Prelude.{◌≡◌, ◌<◌, ◌==◌, ◌&&◌, nat_le, if◌then◌else◌};
ghost use Rattle.model_line.specs.Parameters.{channel_count, terminal_count};
ghost use Rattle.model_line.specs.Channels.{from_of};
ghost use Rattle.model_timing.specs.Timing.{number_at};
ghost use Rattle.judge_why.specs.Plays.{IsPlay, play_of};

use crate::play::Play;
use model_line::Line;
use model_timing::Step;
use run_signal::Tick;

/// The delay that what arrives over a channel at a tick has had.
pub fn delay_at(play: &Play<'_>, channel: u32, t: u32) -> u32
    requires play { IsPlay play.now }
    requires channel { channel < channel_count play.now.compiled.line.now }
    ensures { result ≡ (play_of play.now).delay channel t }
{
    let param = play.compiled.line.delay_of(channel);
    let own = play.timing.values()[param as usize];
    number_by(play.timing.steps(), param, t, own).value()
}

// The number of a parameter at a tick, by steps.
fn number_by(steps: &[Step<Tick>], param: u32, t: u32, own: Tick) -> Tick
    ensures { result ≡ number_at steps.now param t own }
{
    match steps {
        [] => own,
        [step, rest @ ..] => number_by(rest, param, t, moved(step, param, t, own)),
    }
}

// The value of the step where it is of the parameter and has come, else the other.
fn moved(step: &Step<Tick>, param: u32, t: u32, own: Tick) -> Tick
    ensures { result
        ≡ if (step.now.param == param) && nat_le step.now.from t then step.now.value else own }
{
    if step.param == param && step.from <= t {
        step.value
    } else {
        own
    }
}

/// The terminal that sends over a channel.
pub fn sender(line: &Line, channel: u32) -> u32
    requires { channel < channel_count line.now }
    ensures is { result ≡ from_of line.now.channels.items channel }
    ensures exists { result < terminal_count line.now }
{
    line.channels[channel as usize].from
}
