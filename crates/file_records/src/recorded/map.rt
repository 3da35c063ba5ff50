//! The map of a play that is written as a record.

ghost use Rattle.std.specs.Prelude.{◌≡◌, ◌<◌, ◌++◌, IfOk, OnOk, length};
ghost use Rattle.model_history.specs.Each.{each_below};
ghost use Rattle.model_line.specs.Parameters.{terminal_count};
ghost use Rattle.file_records.specs.recorded.Map.{element_signals, front_text, head_text, kind_text, loss_line, map_text as text_of_map};
ghost use Rattle.file_records.specs.recorded.Map.{recorder_head, recorder_text, signal_line, start_text};

use base_text::pieces::push_pieces;
use itoa::Buffer;
use model_line::{Kind, Line, Memory, Script, name_of_terminal};
use std::alloc::Global;

/// The map under which the record is read back, where its configuration is called `NAME.cfg`. The
/// name stands between quotes as it is, so it has no quote, no backslash and no control character.
pub fn map_text(alloc: Global, line: &Line, script: &Script, name: &[u8]) -> Result<Vec<u8>, Memory>
    ensures { IfOk result (λ v. v.items ≡ text_of_map line.now script.now name.now) }
{
    let mut text = Vec::new(alloc);
    put_head(&mut text, script)?;
    put_recorders(&mut text, line, name)?;
    Ok(text)
}

fn put_head(text: &mut Vec<u8>, script: &Script) -> Result<(), Memory>
    ensures { OnOk result (text.new.items ≡ text.old.items ++ head_text script.now) }
{
    put_front(text, script.name.bytes())?;
    put_kind(text, script.kind, script.deadline)?;
    put_start(text)
}

#[tactic(auto, unfolding(crate::specs::recorded::Map::front_text))]
fn put_front(text: &mut Vec<u8>, name: &[u8]) -> Result<(), Memory>
    ensures { OnOk result (text.new.items ≡ text.old.items ++ front_text name.now) }
{
    push_pieces(text, &[b"version = 1\nscript = \"", name, b"\"\n"])
}

#[tactic(auto, unfolding(crate::specs::recorded::Map::start_text))]
fn put_start(text: &mut Vec<u8>) -> Result<(), Memory>
    ensures { OnOk result (text.new.items ≡ text.old.items ++ start_text) }
{
    push_pieces(text, &[b"start = \"2000-01-01T00:00:00\"\n"])
}

#[tactic(auto, unfolding(crate::specs::recorded::Map::kind_text))]
fn put_kind(text: &mut Vec<u8>, kind: Kind, deadline: u32) -> Result<(), Memory>
    ensures { OnOk result (text.new.items ≡ text.old.items ++ kind_text kind deadline) }
{
    match kind {
        Kind::Internal => {
            let mut digits = Buffer::new();
            let deadline = digits.format(deadline).as_bytes();
            push_pieces(
                text,
                &[b"kind = \"internal\"\ndeadline = ", deadline, b"\n"],
            )
        }
        Kind::External => push_pieces(text, &[b"kind = \"external\"\n"]),
    }
}

fn put_recorders(text: &mut Vec<u8>, line: &Line, name: &[u8]) -> Result<(), Memory>
    ensures { OnOk result (text.new.items ≡ text.old.items
        ++ each_below (terminal_count line.now) (recorder_text line.now name.now)) }
{
    for k in 0..line.terminals.len() {
        put_recorder(text, line, name, k as u32)?;
    }
    Ok(())
}

fn put_recorder(text: &mut Vec<u8>, line: &Line, name: &[u8], k: u32) -> Result<(), Memory>
    ensures { OnOk result (text.new.items ≡ text.old.items ++ recorder_text line.now name.now k) }
{
    let terminal = name_of_terminal(line, k);
    put_recorder_head(text, terminal, name)?;
    put_elements(text, line, k)?;
    put_signal(text, terminal, b"key")?;
    put_signal(text, terminal, b"trip")?;
    put_losses(text, line, k)
}

#[tactic(auto, unfolding(crate::specs::recorded::Map::recorder_head))]
fn put_recorder_head(text: &mut Vec<u8>, terminal: &[u8], name: &[u8]) -> Result<(), Memory>
    ensures { OnOk result (text.new.items
        ≡ text.old.items ++ recorder_head terminal.now name.now) }
{
    push_pieces(
        text,
        &[
            b"\n[[recorder]]\nterminal = \"",
            terminal,
            b"\"\nconfig = \"",
            name,
            b".cfg\"\n",
        ],
    )
}

fn put_elements(text: &mut Vec<u8>, line: &Line, k: u32) -> Result<(), Memory>
    ensures { OnOk result (text.new.items ≡ text.old.items ++ element_signals line.now k) }
{
    let terminal = name_of_terminal(line, k);
    put_signal(text, terminal, b"z1")?;
    put_signal(text, terminal, b"z2")?;
    put_signal(text, terminal, b"rv")?;
    put_signal(text, terminal, b"uv")?;
    put_signal(text, terminal, b"cur")
}

#[tactic(auto, unfolding(crate::specs::recorded::Map::signal_line))]
fn put_signal(text: &mut Vec<u8>, name: &[u8], word: &[u8]) -> Result<(), Memory>
    ensures { OnOk result (text.new.items ≡ text.old.items ++ signal_line name.now word.now) }
{
    push_pieces(text, &[word, b" = \"", name, b" ", word, b"\"\n"])
}

fn put_losses(text: &mut Vec<u8>, line: &Line, k: u32) -> Result<(), Memory>
    ensures { OnOk result (text.new.items ≡ text.old.items
        ++ each_below (length line.now.channels.items) (loss_line line.now k)) }
{
    for c in 0..line.channels.len() {
        put_loss(text, line, k, c)?;
    }
    Ok(())
}

// The loss of a channel, where it leads to terminal k.
fn put_loss(text: &mut Vec<u8>, line: &Line, k: u32, c: usize) -> Result<(), Memory>
    requires { c < length line.now.channels.items }
    ensures { OnOk result (text.new.items ≡ text.old.items ++ loss_line line.now k c) }
{
    let channel = line.channels[c];
    if channel.to != k {
        return Ok(());
    }
    let from = name_of_terminal(line, channel.from);
    push_pieces(
        text,
        &[
            b"loss.",
            from,
            b" = \"",
            name_of_terminal(line, k),
            b" lost ",
            from,
            b"\"\n",
        ],
    )
}
