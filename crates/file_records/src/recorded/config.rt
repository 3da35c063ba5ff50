//! The configuration of a play as a record.

ghost use Rattle.std.specs.Prelude.{◌≡◌, ◌<◌, ◌++◌, IfOk, OnOk, length};
ghost use Rattle.model_history.specs.Each.{each_below};
ghost use Rattle.model_line.specs.Parameters.{terminal_count};
ghost use Rattle.file_records.specs.recorded.Config.{channel_count as count_of, channel_line, config_text as text_of_config};
ghost use Rattle.file_records.specs.recorded.Config.{element_lines, head_text, loss_line, tail_text, terminal_lines};

use base_text::pieces::push_pieces;
use itoa::Buffer;
use model_line::{Line, Memory, Script, name_of_terminal};
use std::alloc::Global;

/// The configuration: a digital channel for each element, key and trip of each terminal, and for the
/// loss of each channel. Its ids are `west z2`, `west key`, `west trip`, `west lost east`.
pub fn config_text(alloc: Global, line: &Line, script: &Script) -> Result<Vec<u8>, Memory>
    ensures { IfOk result (λ v. v.items ≡ text_of_config line.now script.now.name) }
{
    let mut text = Vec::new(alloc);
    put_head(&mut text, line, script.name.bytes())?;
    put_terminals(&mut text, line)?;
    put_losses(&mut text, line)?;
    put_tail(&mut text, line)?;
    Ok(text)
}

fn channel_count(line: &Line) -> u32
    ensures { result ≡ count_of line.now }
{
    7 * line.terminals.len() as u32 + line.channels.len() as u32
}

fn put_head(text: &mut Vec<u8>, line: &Line, script: &[u8]) -> Result<(), Memory>
    ensures { OnOk result (text.new.items ≡ text.old.items ++ head_text line.now script.now) }
{
    let mut digits = Buffer::new();
    let count = digits.format(channel_count(line)).as_bytes();
    push_pieces(
        text,
        &[
            b"pilot,", script, b",1999", b"\r\n", count, b",0A,", count, b"D", b"\r\n",
        ],
    )
}

// A channel of a terminal.
#[tactic(auto, unfolding(crate::specs::recorded::Config::channel_line))]
fn put_channel(text: &mut Vec<u8>, n: u32, name: &[u8], word: &[u8]) -> Result<(), Memory>
    ensures { OnOk result (text.new.items ≡ text.old.items ++ channel_line n name.now word.now) }
{
    let mut digits = Buffer::new();
    let n = digits.format(n).as_bytes();
    push_pieces(text, &[n, b",", name, b" ", word, b",,,0", b"\r\n"])
}

// The channels of what a terminal sees.
fn put_elements(text: &mut Vec<u8>, line: &Line, k: u32) -> Result<(), Memory>
    requires { k < terminal_count line.now }
    ensures { OnOk result (text.new.items ≡ text.old.items ++ element_lines line.now k) }
{
    let name = name_of_terminal(line, k);
    put_channel(text, 7 * k + 1, name, b"z1")?;
    put_channel(text, 7 * k + 2, name, b"z2")?;
    put_channel(text, 7 * k + 3, name, b"rv")?;
    put_channel(text, 7 * k + 4, name, b"uv")?;
    put_channel(text, 7 * k + 5, name, b"cur")
}

// The channels of a terminal.
fn put_terminal(text: &mut Vec<u8>, line: &Line, k: u32) -> Result<(), Memory>
    requires { k < terminal_count line.now }
    ensures { OnOk result (text.new.items ≡ text.old.items ++ terminal_lines line.now k) }
{
    let name = name_of_terminal(line, k);
    put_elements(text, line, k)?;
    put_channel(text, 7 * k + 6, name, b"key")?;
    put_channel(text, 7 * k + 7, name, b"trip")
}

fn put_terminals(text: &mut Vec<u8>, line: &Line) -> Result<(), Memory>
    ensures { OnOk result (text.new.items ≡ text.old.items
        ++ each_below (terminal_count line.now) (terminal_lines line.now)) }
{
    for k in 0..line.terminals.len() {
        put_terminal(text, line, k as u32)?;
    }
    Ok(())
}

// The loss of a channel.
fn put_loss(text: &mut Vec<u8>, line: &Line, c: usize) -> Result<(), Memory>
    requires { c < length line.now.channels.items }
    ensures { OnOk result (text.new.items ≡ text.old.items ++ loss_line line.now c) }
{
    let channel = line.channels[c];
    let mut digits = Buffer::new();
    let n = digits
        .format(7 * line.terminals.len() as u32 + c as u32 + 1)
        .as_bytes();
    push_pieces(
        text,
        &[
            n,
            b",",
            name_of_terminal(line, channel.to),
            b" lost ",
            name_of_terminal(line, channel.from),
            b",,,0",
            b"\r\n",
        ],
    )
}

fn put_losses(text: &mut Vec<u8>, line: &Line) -> Result<(), Memory>
    ensures { OnOk result (text.new.items ≡ text.old.items
        ++ each_below (length line.now.channels.items) (loss_line line.now)) }
{
    for c in 0..line.channels.len() {
        put_loss(text, line, c)?;
    }
    Ok(())
}

fn put_tail(text: &mut Vec<u8>, line: &Line) -> Result<(), Memory>
    ensures { OnOk result (text.new.items ≡ text.old.items ++ tail_text line.now) }
{
    let mut digits = Buffer::new();
    let last = digits.format(line.horizon).as_bytes();
    push_pieces(
        text,
        &[
            b"50",
            b"\r\n",
            b"0",
            b"\r\n",
            b"0,",
            last,
            b"\r\n",
            b"01/01/2000,00:00:00.000000",
            b"\r\n",
            b"01/01/2000,00:00:00.000000",
            b"\r\n",
            b"ASCII",
            b"\r\n",
            b"1",
            b"\r\n",
        ],
    )
}
