//! Terminals and channels by their names, and the names of what they have.

use model_line::Line;
use model_names::{channel_of_name, terminal_of_name};

/// The array in which a line file has the terminal or channel of this name, and its place there.
pub fn place_of_owner(line: &Line, name: &[u8]) -> (&'static str, usize) {
    match terminal_of_name(line, name) {
        Some(k) => ("terminal", k as usize),
        None => ("channel", channel_of_name(line, name).unwrap_or(0) as usize),
    }
}

/// What stands before and behind the first dot.
pub fn parted(name: &[u8]) -> (&[u8], &[u8]) {
    for dot in 0..name.len() {
        if name[dot] == b'.' {
            return (&name[..dot], &name[dot + 1..]);
        }
    }
    (name, b"")
}
