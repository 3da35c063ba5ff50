//! When what a terminal sees changes.

ghost use Rattle.std.specs.Prelude.{◌≡◌, ◌<◌, ◌≤◌, ◌-◌, ◌&&◌, length};
ghost use Rattle.call_shots.specs.Changes.{begins as a_state_begins, elements_alike as all_alike};
ghost use Rattle.call_shots.specs.Changes.{is_alike as sees_the_same, loses as has_lost};
ghost use Rattle.call_shots.specs.Changes.{losses_alike as all_lost_alike, next_begun};
ghost use Rattle.call_shots.specs.Changes.{sees as has_seen, sees_alike as seen_alike};

use model_line::{Element, Line, Place, Script, loss, seen};

/// Whether a terminal sees an element at a tick.
pub fn sees(script: &Script, terminal: u32, t: u32, element: Element) -> bool
    ensures { result ≡ has_seen script.now terminal t element }
{
    seen(script, Place { element, terminal }, t)
}

/// Whether a channel that leads to a terminal is lost at a tick.
pub fn loses(line: &Line, script: &Script, terminal: u32, t: u32, channel: usize) -> bool
    requires { channel < length line.now.channels.items }
    ensures { result ≡ has_lost line.now script.now terminal t channel }
{
    line.channels[channel].to == terminal && loss(script, channel as u32, t)
}

fn sees_alike(script: &Script, terminal: u32, t: u32, u: u32, element: Element) -> bool
    ensures { result ≡ seen_alike script.now terminal t u element }
{
    sees(script, terminal, t, element) == sees(script, terminal, u, element)
}

fn elements_alike(script: &Script, terminal: u32, t: u32, u: u32) -> bool
    ensures { result ≡ all_alike script.now terminal t u }
{
    sees_alike(script, terminal, t, u, Element::Z1)
        && sees_alike(script, terminal, t, u, Element::Z2)
        && sees_alike(script, terminal, t, u, Element::Rv)
        && sees_alike(script, terminal, t, u, Element::Uv)
        && sees_alike(script, terminal, t, u, Element::Cur)
}

fn losses_alike(line: &Line, script: &Script, terminal: u32, t: u32, u: u32) -> bool
    ensures { result ≡ all_lost_alike line.now script.now terminal t u
        (length line.now.channels.items) }
{
    let mut alike = true;
    for c in 0..line.channels.len() {
        let same = loses(line, script, terminal, t, c) == loses(line, script, terminal, u, c);
        alike = both(alike, same);
    }
    alike
}

fn both(one: bool, other: bool) -> bool
    ensures { result ≡ one && other }
{
    one && other
}

// Whether a terminal sees the same at two ticks.
fn is_alike(line: &Line, script: &Script, terminal: u32, t: u32, u: u32) -> bool
    ensures { result ≡ sees_the_same line.now script.now terminal t u }
{
    elements_alike(script, terminal, t, u) && losses_alike(line, script, terminal, t, u)
}

/// Whether a state of what a terminal sees begins at a tick.
#[tactic(auto, unfolding(crate::specs::Changes::begins))]
pub fn begins(line: &Line, script: &Script, terminal: u32, t: u32) -> bool
    ensures { result ≡ a_state_begins line.now script.now terminal t }
{
    t == 0 || !is_alike(line, script, terminal, t - 1, t)
}

/// The first tick from t on at which a state begins, or the horizon.
#[tactic(auto, using(crate::proofs::Next::begun_here, crate::proofs::Next::begun_later, crate::proofs::Next::begun_end))]
pub fn next_from(line: &Line, script: &Script, terminal: u32, t: u32) -> u32
    requires { t ≤ line.now.horizon }
    ensures { result ≡ next_begun line.now script.now terminal t (line.now.horizon - t) }
{
    for u in t..line.horizon {
        if begins(line, script, terminal, u) {
            return u;
        }
    }
    line.horizon
}
