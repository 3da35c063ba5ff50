//! The worst delay of a channel, from one tick at which it changes to the next.

ghost use Rattle.std.specs.Prelude.{◌≡◌, ◌≤◌, ◌<◌, ℕ, false, IsTrue, IsFalse};
ghost use Rattle.run_signal.specs.Spans.{ends_of};
ghost use Rattle.model_line.specs.Parameters.{channel_count, terminal_count, delay_param};
ghost use Rattle.model_line.specs.{Parameters.declared_ends, Channels.from_of};
ghost use Rattle.model_logic.specs.Choice.{IsIn};
ghost use Rattle.model_settle.specs.Worst.{worst_delay as worst_delay_of, shows as is_looked_for};
ghost use Rattle.judge_verdict.specs.verdict.PairWavesOf.{pair_history};
ghost use Rattle.judge_settle.specs.corner.Named.{rail_named};
ghost use Rattle.judge_settle.specs.corner.Corner.{corner};
ghost use Rattle.judge_settle.specs.corner.Delays.{is_shown_at, NoneIsShown, NothingIsAwaited};
ghost use Rattle.judge_settle.specs.corner.Delays.{IsAlikeUntil};

use crate::corner::rail::Rail;
use crate::corner::scheme::key_rail;
use judge_verdict::verdict::PairWaves;
use model_line::Line;
use model_line::laws::declared_intervals_are_in_order;
use model_settle::polarity_laws::worst_delays_are_rails;

/// A delay that lasts until a tick.
#[derive(Clone, Copy)]
pub struct Lasting {
    pub delay: u32,
    pub until: u32,
}

/// The delay that the corner has on a channel at a tick, and a later tick until which it has it.
pub fn delay_from(line: &Line, waves: &PairWaves, rail: Rail, channel: u32, t: u32) -> Lasting
    requires channel { channel < channel_count line.now }
    requires tick { t < waves.now.horizon }
    requires terminals { waves.now.terminals ≡ terminal_count line.now }
    requires horizon { waves.now.horizon ≡ line.now.horizon }
    ensures later { t < result.until }
    ensures inside { result.until ≤ waves.now.horizon }
    ensures delay { (r : ℕ) → t ≤ r → r < result.until → result.delay
        ≡ (corner line.now (rail_named rail) (pair_history waves.now)).delay channel r }
    ensures within { IsIn result.delay (declared_ends line.now (delay_param line.now channel)) }
{
    worst_delays_are_rails();
    declared_intervals_are_in_order();
    let sender = sender_of(line, channel);
    let param = line.delay_of(channel);
    let rail = key_rail(line.scheme, rail);
    let (least, greatest) = (line.least(param), line.greatest(param));
    let lasting = worst_from(waves, sender, rail, least, greatest, t);
    Lasting {
        delay: lasting.delay,
        until: lasting.until.min(waves.horizon()),
    }
}

// The terminal that sends over a channel.
fn sender_of(line: &Line, channel: u32) -> u32
    requires { channel < channel_count line.now }
    ensures is { result ≡ from_of line.now.channels.items channel }
    ensures exists { result < terminal_count line.now }
{
    line.channels[channel as usize].from
}

// The last delay of the interval that shows what the rail looks for at the tick, the least where
// none does; and until when it is the last, at the ticks of the run.
fn worst_from(
    waves: &PairWaves,
    sender: u32,
    rail: Rail,
    least: u32,
    greatest: u32,
    t: u32,
) -> Lasting
    requires sender { sender < waves.now.terminals }
    requires tick { t < waves.now.horizon }
    requires short { waves.now.horizon ≤ 4000 }
    requires ordered { least ≤ greatest }
    requires limited { greatest ≤ 4000 }
    ensures later { t < result.until }
    ensures worst { (r : ℕ) → t ≤ r → r < result.until → r < waves.now.horizon → result.delay
        ≡ worst_delay_of (rail_named rail) ((pair_history waves.now).key sender)
        (ends_of least greatest) r }
{
    if is_awaited(rail, greatest, t) {
        return Lasting {
            delay: greatest,
            until: greatest,
        };
    }
    let first = first_shown(waves, sender, rail, t.saturating_sub(greatest));
    if first >= t.saturating_sub(least) {
        return Lasting {
            delay: least,
            until: first + least + 1,
        };
    }
    let delay = t - first;
    if delay < greatest {
        return Lasting {
            delay,
            until: t + 1,
        };
    }
    Lasting {
        delay: greatest,
        until: alike_until(waves, sender, first) + greatest,
    }
}

// Whether nothing is looked for, and after the greatest delay nothing has arrived yet.
fn is_awaited(rail: Rail, greatest: u32, t: u32) -> bool
    ensures awaited { IsTrue result → t < greatest }
    ensures shown { IsTrue result → IsTrue (is_looked_for (rail_named rail) false) }
    ensures past { IsFalse result → NothingIsAwaited (rail_named rail) greatest t }
{
    t < greatest && rail.looks_for(false)
}

// The first tick from that one on at which a key is what the rail looks for, or the end of the run.
fn first_shown(waves: &PairWaves, sender: u32, rail: Rail, from: u32) -> u32
    requires sender { sender < waves.now.terminals }
    requires from { from ≤ waves.now.horizon }
    ensures later { from ≤ result }
    ensures inside { result ≤ waves.now.horizon }
    ensures none { NoneIsShown (rail_named rail) ((pair_history waves.now).key sender) from result }
    ensures shown { result < waves.now.horizon →
        IsTrue (is_shown_at (rail_named rail) ((pair_history waves.now).key sender) result) }
{
    let mut keys = waves.key_runs(sender).cursor();
    let mut s = from;
    'stretches: while s < waves.horizon() {
        let run = keys.stretch(s);
        if rail.looks_for(rail.reads(run.level)) {
            return s;
        }
        s = run.end;
    }
    s
}

// A later tick until which a key is as at that one.
fn alike_until(waves: &PairWaves, sender: u32, s: u32) -> u32
    requires sender { sender < waves.now.terminals }
    requires tick { s < waves.now.horizon }
    ensures inside { result ≤ waves.now.horizon }
    ensures alike { IsAlikeUntil ((pair_history waves.now).key sender) s result }
{
    let mut keys = waves.key_runs(sender).cursor();
    keys.stretch(s).end
}
