//! Paths of tables and keys, as bytes.

use base_memory::Memory;
use base_text::pieces::push_pieces;
use itoa::Buffer;

/// Appends the number of an item of an array.
pub fn push_index(path: &mut Vec<u8>, number: u32) -> Result<(), Memory> {
    let mut digits = Buffer::new();
    push_pieces(path, &[b"[", digits.format(number).as_bytes(), b"]"])
}

/// A byte of a key as a path shows it.
pub fn shown(byte: u8) -> u8 {
    if (0x21..=0x7e).contains(&byte) {
        byte
    } else {
        b'?'
    }
}

/// Whether one path is the other, or a table or an array in which the other stands.
pub fn leads_to(own: &[u8], path: &[u8]) -> bool {
    if !path.starts_with(own) {
        return false;
    }
    match path.get(own.len()) {
        None => true,
        Some(b) => *b == b'.' || *b == b'[',
    }
}

/// The last key of a path, without the number of an item.
pub fn last_key(path: &[u8]) -> &[u8] {
    let mut key = path;
    for dot in 0..path.len() {
        if path[dot] == b'.' {
            key = &path[dot + 1..];
        }
    }
    before_number(key)
}

/// The path of the table in which the last key stands.
pub fn table_of(path: &[u8]) -> &[u8] {
    let mut table: &[u8] = b"";
    for dot in 0..path.len() {
        if path[dot] == b'.' {
            table = &path[..dot];
        }
    }
    table
}

/// What stands before the number of an item.
pub fn before_number(key: &[u8]) -> &[u8] {
    for bracket in 0..key.len() {
        if key[bracket] == b'[' {
            return &key[..bracket];
        }
    }
    key
}
