//! The words of what a gate is called.

ghost use Rattle.std.specs.Prelude.{◌≡◌, ◌++◌, OnOk};
ghost use Rattle.call_why.specs.Words.{any_word as any_word_of, element_word as element_word_of};
ghost use Rattle.call_why.specs.Words.{of_one, of_two, part_words, received_word as received_word_of};
ghost use Rattle.call_why.specs.Words.{role_words, sent_word as sent_word_of};

use crate::part::Part;
use model_line::{Element, Line, Memory, Scheme, name_of_terminal};
use model_plain::{Role, receiver, sender};

/// Appends what a gate is called.
#[tactic(auto, unfolding(crate::specs::Words::part_words))]
pub fn push_part(text: &mut Vec<u8>, line: &Line, part: Part) -> Result<(), Memory>
    ensures { OnOk result (text.new.items ≡ text.old.items ++ part_words line.now part) }
{
    match part {
        Part::Is(role) => push_role(text, line, role),
        Part::Trip(k) => push_one(text, line, b"the trip of ", k),
        Part::Key(k) => push_one(text, line, sent_word(line.scheme), k),
    }
}

#[tactic(auto, unfolding(crate::specs::Words::role_words))]
fn push_role(text: &mut Vec<u8>, line: &Line, role: Role) -> Result<(), Memory>
    ensures { OnOk result (text.new.items ≡ text.old.items ++ role_words line.now role) }
{
    match role {
        Role::Seen(place) => push_one(text, line, element_word(place.element), place.terminal),
        Role::Timed(place) => push_one(text, line, element_word(place.element), place.terminal),
        Role::Lost(c) => push_two(text, line, b"the loss of the channel from ", c, b" to "),
        Role::Raw(c) => push_two(text, line, received_word(line.scheme), c, b" at "),
        Role::Received(c) => push_two(text, line, received_word(line.scheme), c, b" at "),
        Role::Window(c) => push_two(text, line, b"the unblocking window for ", c, b" at "),
        Role::Lockout(c) => push_two(text, line, b"the lockout of ", c, b" at "),
        Role::Guard(k) => push_one(text, line, b"the reversal guard of ", k),
        Role::Coordination(k) => push_one(text, line, b"the coordination time of ", k),
        Role::Echo(k) => push_one(text, line, b"the echo of ", k),
        Role::Permission(k) => push_one(text, line, b"the permission of all others at ", k),
        Role::AnyReceived(k) => push_one(text, line, any_word(line.scheme), k),
    }
}

// Appends words, and a terminal.
fn push_one(text: &mut Vec<u8>, line: &Line, words: &[u8], k: u32) -> Result<(), Memory>
    ensures { OnOk result (text.new.items ≡ text.old.items ++ of_one line.now words.now k) }
{
    text.extend_from_slice(words)?;
    text.extend_from_slice(name_of_terminal(line, k))?;
    Ok(())
}

// Appends words, and the ends of a channel with words between them.
fn push_two(
    text: &mut Vec<u8>,
    line: &Line,
    words: &[u8],
    channel: u32,
    between: &[u8],
) -> Result<(), Memory>
    ensures { OnOk result (text.new.items
        ≡ text.old.items ++ of_two line.now words.now channel between.now) }
{
    push_one(text, line, words, sender(line, channel))?;
    push_one(text, line, between, receiver(line, channel))
}

fn element_word(element: Element) -> &'static [u8]
    ensures { result.now ≡ element_word_of element }
{
    match element {
        Element::Z1 => b"zone 1 of ",
        Element::Z2 => b"zone 2 of ",
        Element::Rv => b"the reverse element of ",
        Element::Uv => b"the undervoltage element of ",
        Element::Cur => b"the current of ",
    }
}

// What a scheme calls what is sent.
fn sent_word(scheme: Scheme) -> &'static [u8]
    ensures { result.now ≡ sent_word_of scheme }
{
    match scheme {
        Scheme::Pott | Scheme::Putt | Scheme::Dcub => b"the permission sent by ",
        Scheme::Dcb => b"the block sent by ",
        Scheme::Dtt => b"the transfer trip sent by ",
    }
}

// The same once it is received.
fn received_word(scheme: Scheme) -> &'static [u8]
    ensures { result.now ≡ received_word_of scheme }
{
    match scheme {
        Scheme::Pott | Scheme::Putt | Scheme::Dcub => b"the permission from ",
        Scheme::Dcb => b"the block from ",
        Scheme::Dtt => b"the transfer trip from ",
    }
}

// And of any other terminal.
fn any_word(scheme: Scheme) -> &'static [u8]
    ensures { result.now ≡ any_word_of scheme }
{
    match scheme {
        Scheme::Pott | Scheme::Putt | Scheme::Dcub => b"a permission at ",
        Scheme::Dcb => b"a block at ",
        Scheme::Dtt => b"a transfer trip at ",
    }
}
